// The names of the refusals.
ghost use Rattle.std.specs.Prelude.{◌≡◌, ◌<◌, ◌⊎◌, MatchOption};
ghost use Rattle.refusal.specs.Refusal.{number_of};
ghost use Rattle.pothatch.specs.Library.{Names};

use image::{RANGE, clear, put_array};
use refusal::Refusal;

// The refusal's name in ASCII, with zeros after it.
pub fn pothatch_refusal_name(number: u64, name: &mut [u8]) -> u32
    ensures { Names number name.old result name.new }
{
    refusal::number_range_law();
    if name.len() != 8 {
        return RANGE;
    }
    let Some(refusal) = refusal_of(number) else {
        clear(name);
        return RANGE;
    };
    put_array(name, &refusal.name());
    0
}

// The refusal that has a number.
fn refusal_of(number: u64) -> Option<Refusal>
    ensures { MatchOption result ((number < 1) ⊎ (22 < number)) (λ refusal. number_of refusal ≡ number) }
{
    let refusal = match number {
        1 => Refusal::Cut,
        2 => Refusal::Form,
        3 => Refusal::Deep,
        4 => Refusal::Extra,
        5 => Refusal::Type,
        6 => Refusal::Twice,
        7 => Refusal::Keys,
        8 => Refusal::Role,
        9 => Refusal::Owed,
        10 => Refusal::Clash,
        11 => Refusal::Clock,
        12 => Refusal::Room,
        13 => Refusal::Range,
        14 => Refusal::Silent,
        15 => Refusal::Long,
        16 => Refusal::Phase,
        17 => Refusal::Full,
        18 => Refusal::Unknown,
        19 => Refusal::Loose,
        20 => Refusal::Seal,
        21 => Refusal::Spent,
        22 => Refusal::Stale,
        _ => return None,
    };
    Some(refusal)
}
