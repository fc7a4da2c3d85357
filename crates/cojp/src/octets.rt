// Network identifiers, network prefixes and JRC addresses: byte strings of at most 16 bytes.
ghost use Rattle.std.specs.Prelude.{◌≡◌, drop};
ghost use Rattle.cojp.specs.Bytes.{value_view, after_value, Continues};
ghost use Rattle.cojp.specs.Octets.{no_octets_parameter, octets_read};
ghost use Rattle.cojp.specs.Reading.{read_by};

use crate::copy::copied;
use crate::disposition::Disposition;
use cbor::{Value, value_at};
use refusal::Refusal;

// The most bytes that such a value has.
const MOST: usize = 16;

// The first `len` bytes; zeros stand after them in a value that we make.
// Kept: no heap; C stores it in its images at fixed places (crates/object_image).
#[derive(Clone, Copy)]
pub struct Octets {
    pub len: usize,
    pub bytes: [u8; 16],
}

// A parameter that is a byte string; the value counts where it is taken.
#[derive(Clone, Copy)]
pub struct OctetsParameter {
    pub disposition: Disposition,
    pub value: Octets,
}

// A parameter with no value.
pub fn no_octets(report: Disposition) -> OctetsParameter
    ensures { result ≡ no_octets_parameter report }
{
    OctetsParameter {
        disposition: report,
        value: Octets {
            len: 0,
            bytes: [0u8; 16],
        },
    }
}

impl OctetsParameter {
    // The same parameter, made anew field by field: so a reader that stores it copies none of the unused bytes between its fields, for
    // which the next copy of the whole would wait.
    pub fn repacked(self) -> OctetsParameter
        ensures { result ≡ self }
    {
        let report = self.disposition;
        let held = self.value;
        let bytes = held.bytes;
        let value = Octets {
            len: held.len,
            bytes,
        };
        OctetsParameter {
            disposition: report,
            value,
        }
    }
}

// The byte string of `least` to 16 bytes at a place of a payload that passed the item scan, and where the bytes go on after it; one of
// another length is discarded. Of other bytes it says what `value_view` makes of them.
pub fn read_octets(s: &[u8], at: usize, least: usize) -> Result<(OctetsParameter, usize), Refusal>
    ensures value { read_by result ≡ octets_read least (value_view (drop at s.now)) }
    ensures rest { Continues s.now result (after_value (drop at s.now)) }
{
    let Value::Bytes { start, len } = value_at(s, at) else {
        return Err(Refusal::Type);
    };
    let next = start + len;
    if len < least {
        return Ok((no_octets(Disposition::Discarded), next));
    }
    if MOST < len {
        return Ok((no_octets(Disposition::Discarded), next));
    }
    let value = Octets {
        len,
        bytes: copied(s, start, len),
    };
    let parameter = OctetsParameter {
        disposition: Disposition::Taken,
        value,
    };
    Ok((parameter, next))
}
