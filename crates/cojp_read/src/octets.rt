// Parameters that are byte strings, of both objects.
ghost use Rattle.std.specs.Prelude.{◌≡◌, drop, IfOk};
ghost use Rattle.cojp.specs.Bytes.{value_view, after_value, EndsAt};
ghost use Rattle.cojp.specs.Octets.{no_octets_parameter, octets_read};
ghost use Rattle.cojp.specs.Reading.{by_version_of};
ghost use Rattle.cojp_map.specs.Pairs.{seen, once};
ghost use Rattle.cojp_read.specs.Pair.{reading_in};

use cojp::{Disposition, OctetsParameter};
use cojp_map::octets_once;
use protocol_version::Version;
use refusal::Refusal;

// Takes the byte string of `least` to 16 bytes at a place: TWICE where its label came before; what follows from a bad one is the form's.
pub(crate) fn take_octets(
    octets: &mut OctetsParameter,
    s: &[u8],
    at: usize,
    least: usize,
    version: Version,
) -> Result<usize, Refusal>
    ensures octets { reading_in (λ n. octets.new) result ≡ once (seen octets.old.disposition) (by_version_of version
        (no_octets_parameter Disposition.Discarded) (octets_read least (value_view (drop at s.now)))) }
    ensures rest { IfOk result (λ n. EndsAt s.now n (after_value (drop at s.now))) }
{
    let (read, next) = octets_once(s, at, octets.disposition, least, version)?;
    *octets = read.repacked();
    Ok(next)
}
