// A known label may come once.
ghost use Rattle.std.specs.Prelude.{◌≡◌, drop};
ghost use Rattle.cojp.specs.Bytes.{value_view, after_value, EndsAt, Continues};
ghost use Rattle.cojp.specs.Octets.{no_octets_parameter, octets_read};
ghost use Rattle.cojp.specs.Reading.{read_by, malformed_as, by_version_of};
ghost use Rattle.cojp_map.specs.Pairs.{seen, once};

use crate::pair::item_end;
use cojp::{Disposition, OctetsParameter, no_octets, read_octets};
use protocol_version::Version;
use refusal::Refusal;

// Whether a label came before: its parameter was taken or discarded.
pub fn is_seen(report: Disposition) -> bool
    ensures { result ≡ seen report }
{
    report != Disposition::Absent
}

// The byte string of `least` to 16 bytes at a place, and where the bytes go on after it, in the published form: one that is bad is discarded.
fn malformed_octets(s: &[u8], at: usize, least: usize) -> (OctetsParameter, usize)
    ensures value { result.0
        ≡ malformed_as (no_octets_parameter Disposition.Discarded) (octets_read least (value_view (drop at s.now))) }
    ensures rest { EndsAt s.now result.1 (after_value (drop at s.now)) }
{
    match read_octets(s, at, least) {
        Ok(read) => read,
        Err(_) => (no_octets(Disposition::Discarded), item_end(s, at)),
    }
}

// The byte string of `least` to 16 bytes at a place of a payload that passed the item scan, and where the bytes go on after it: TWICE where
// its label came before, with what is held; what follows from a bad one is the form's.
pub fn octets_once(
    s: &[u8],
    at: usize,
    held: Disposition,
    least: usize,
    version: Version,
) -> Result<(OctetsParameter, usize), Refusal>
    ensures value { read_by result ≡ once (seen held)
        (by_version_of version (no_octets_parameter Disposition.Discarded) (octets_read least (value_view (drop at s.now)))) }
    ensures rest { Continues s.now result (after_value (drop at s.now)) }
{
    if is_seen(held) {
        return Err(Refusal::Twice);
    }
    match version {
        Version::Draft => read_octets(s, at, least),
        Version::Published => Ok(malformed_octets(s, at, least)),
    }
}
