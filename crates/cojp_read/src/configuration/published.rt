// What only the published form (RFC 9031) has: blacklist, join rate, and the labels that came.
ghost use Rattle.std.specs.Prelude.{◌≡◌, drop, IfOk};
ghost use Rattle.cojp.specs.Bytes.{value_view, after_value, EndsAt};
ghost use Rattle.cojp.specs.Lists.{blacklist_taken};
ghost use Rattle.cojp.specs.Rate.{rate_taken};
ghost use Rattle.cojp.specs.Reading.{read};
ghost use Rattle.cojp_map.specs.Pairs.{seen, once};
ghost use Rattle.cojp_read.specs.Pair.{reading_in};
ghost use Rattle.cojp_read.specs.configuration.Noted.{labels_seen_with};

use cojp::{ErrorReports, ListParameter, Parameter, RateParameter, parameter_of, read_rate};
use cojp_list::{read_blacklist, taken_list};
use cojp_map::{is_seen, item_end};
use protocol_version::Version;
use refusal::Refusal;

// Takes the blacklist at a place: TWICE where its label came before.
pub(crate) fn take_blacklist(
    blacklist: &mut ListParameter,
    s: &[u8],
    at: usize,
) -> Result<usize, Refusal>
    ensures blacklist { reading_in (λ n. blacklist.new) result
        ≡ once (seen blacklist.old.disposition) (read (blacklist_taken (value_view (drop at s.now)))) }
    ensures rest { IfOk result (λ n. EndsAt s.now n (after_value (drop at s.now))) }
{
    if is_seen(blacklist.disposition) {
        return Err(Refusal::Twice);
    }
    *blacklist = taken_list(read_blacklist(s, at));
    Ok(item_end(s, at))
}

// Takes the join rate at a place: TWICE where its label came before.
pub(crate) fn take_rate(rate: &mut RateParameter, s: &[u8], at: usize) -> Result<usize, Refusal>
    ensures rate { reading_in (λ n. rate.new) result
        ≡ once (seen rate.old.disposition) (read (rate_taken (value_view (drop at s.now)))) }
    ensures rest { IfOk result (λ n. EndsAt s.now n (after_value (drop at s.now))) }
{
    if is_seen(rate.disposition) {
        return Err(Refusal::Twice);
    }
    *rate = read_rate(s, at);
    Ok(item_end(s, at))
}

// Notes a known label among those that came, with the code of a malformed parameter (1), which is what a bad one is reported as. The draft
// reports nothing.
pub(crate) fn note_label(labels: &mut ErrorReports, version: Version, label: u64)
    ensures { labels.new ≡ labels_seen_with version label labels.old }
{
    match (version, parameter_of(version, label)) {
        (Version::Draft, _) | (_, Parameter::Unknown) => {}
        _ => *labels = labels.add(1, label as u8),
    }
}
