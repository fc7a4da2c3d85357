// Configurations are read from payloads, in both forms: one scan, and one walk over the pairs of the map.
// Configurations, which join responses and parameter updates carry.
mod once;
mod published;

ghost use Rattle.std.specs.Prelude.{◌≡◌, ◌+◌, ◌<◌, ◌≤◌, ◌^◌, drop, IfOk};
ghost use Rattle.cbor.specs.Strict.{head_by};
ghost use Rattle.cojp.specs.Configuration.{configuration_form, read_configuration_by};
ghost use Rattle.cojp.specs.Walk.{payload_read_by};
ghost use Rattle.cojp_read.specs.Pair.{reading_in, PairTaken};

use crate::configuration::once::{take_address, take_keys};
use crate::configuration::published::{note_label, take_blacklist, take_rate};
use crate::octets::take_octets;
use cojp::{Configuration, ConfigurationRead, Parameter, empty_configuration, parameter_of};
use cojp_map::{item_end, labelled_at, open_payload};
use protocol_version::Version;
use refusal::Refusal;

// Takes the pair at a place into a configuration: where the bytes go on. Each parameter is stored where it stands: to hand a Configuration
// on costs a fifth of a short read.
fn take_pair(c: &mut Configuration, s: &[u8], at: usize, version: Version) -> Result<usize, Refusal>
    requires { c.old.unknown + 1 < 2 ^ 64 }
    ensures taken { PairTaken (configuration_form version) c.old s.now (drop at s.now) result c.new }
    ensures few { IfOk result (λ n. c.new.unknown ≤ c.old.unknown + 1) }
{
    let (label, value) = labelled_at(s, at)?;
    note_label(&mut c.labels, version, label);
    match parameter_of(version, label) {
        Parameter::Keys => take_keys(&mut c.keys, s, value, version),
        Parameter::Address => take_address(&mut c.address, s, value, version),
        Parameter::Jrc => take_octets(&mut c.jrc, s, value, 16, version),
        Parameter::Network => take_octets(&mut c.network, s, value, 0, Version::Draft),
        Parameter::Prefix => take_octets(&mut c.prefix, s, value, 0, Version::Draft),
        Parameter::Blacklist => take_blacklist(&mut c.blacklist, s, value),
        Parameter::Rate => take_rate(&mut c.rate, s, value),
        Parameter::Unknown => {
            c.unknown += 1;
            Ok(item_end(s, value))
        }
    }
}

// Takes the pairs of a payload in their order, up to the first refusal.
fn take_pairs(
    c: &mut Configuration,
    payload: &[u8],
    version: Version,
    strict: bool,
) -> Result<(), Refusal>
    requires { c.old.unknown ≡ 0 }
    ensures { reading_in (λ x. c.new) result ≡ payload_read_by (configuration_form version) (head_by strict) c.old payload.now }
{
    let map = open_payload(payload, strict)?;
    let mut at = map.start;
    for _ in 0..map.count {
        at = take_pair(c, payload, at, version)?;
    }
    Ok(())
}

// Reads a configuration of a form from a payload, strictly or not: the pairs in payload order, up to the first refusal.
pub fn read_configuration(payload: &[u8], version: Version, strict: bool) -> ConfigurationRead
    ensures { result ≡ read_configuration_by version (head_by strict) payload.now }
{
    let mut c = empty_configuration();
    // Kept: a refusal has the empty configuration beside it (document 01; the law `ReadersDemand1` of cojp).
    match take_pairs(&mut c, payload, version, strict) {
        Ok(()) => ConfigurationRead {
            verdict: Ok(()),
            configuration: c,
        },
        Err(why) => ConfigurationRead {
            verdict: Err(why),
            configuration: empty_configuration(),
        },
    }
}
