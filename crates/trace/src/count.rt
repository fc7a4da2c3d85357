// Counts of 64 bits, and waits. A count that is full stays full.
ghost use Rattle.std.specs.Prelude.{◌≡◌, ◌-◌, ◌<◌, cond, length};
ghost use Rattle.trace.specs.Statistics.{is_accepted, greater};
ghost use Rattle.trace.specs.Step.{more, more_if, raised, refused};

use refusal::Refusal;

fn more(n: u64) -> u64
    ensures { result ≡ more n }
{
    n.saturating_add(1)
}

pub(crate) fn more_if(again: bool, n: u64) -> u64
    ensures { result ≡ more_if again n }
{
    if again {
        return more(n);
    }
    n
}

// One more at a place.
fn raise(counts: &mut [u64], place: usize)
    requires { place < length counts.old }
    ensures { counts.new ≡ raised counts.old place }
{
    let n = counts[place];
    counts[place] = more(n);
}

// The record of a kind, which stands at this place, is counted.
pub(crate) fn with_kind(kinds: [u64; 6], place: usize) -> [u64; 6]
    requires { place < 6 }
    ensures { result ≡ raised kinds place }
{
    let mut counts = kinds;
    raise(&mut counts, place);
    counts
}

// A refusal is counted at its number, the first of which is 1.
pub(crate) fn with_refusal(refusals: [u64; 22], verdict: Result<(), Refusal>) -> [u64; 22]
    ensures { result ≡ refused verdict refusals }
{
    match verdict {
        Ok(()) => refusals,
        Err(why) => {
            refusal::number_range_law();
            let mut counts = refusals;
            let place = why.number() - 1;
            raise(&mut counts, place as usize);
            counts
        }
    }
}

// The start that a node waits from: an accepted one at this time, or the old one.
pub(crate) fn started_by(verdict: Result<(), Refusal>, time: u64, old: u64) -> u64
    ensures { result ≡ cond (is_accepted verdict) time old }
{
    match verdict {
        Ok(()) => time,
        Err(_) => old,
    }
}

// The longest wait after a join answer at this time.
#[tactic(auto, using(crate::proofs::Numbers::max_greater))]
pub(crate) fn longer(verdict: Result<(), Refusal>, started: u64, time: u64, longest: u64) -> u64
    ensures { result ≡ cond (is_accepted verdict) (greater (time - started) longest) longest }
{
    match verdict {
        Ok(()) => time.saturating_sub(started).max(longest),
        Err(_) => longest,
    }
}
