// Short addresses, with the time that they are leased for: seconds, in the published form hours.
ghost use Rattle.std.specs.Prelude.{◌≡◌, ◌+◌, ◌≤◌, length, drop};
ghost use Rattle.cojp.specs.Address.{no_address_parameter, address_by, address_in, address_concluded, address_read};
ghost use Rattle.cojp.specs.Bytes.{value_view, members_at, string_and, after_value, after_members, Continues};
ghost use Rattle.cojp.specs.Reading.{read, read_by};

use crate::disposition::Disposition;
use crate::members::{Member, member_at};
use cbor::{Value, value_at};
use refusal::Refusal;
use short_address::is_address;

// An address that is not leased has no end; its lease is 0 in a value that we make.
// Kept: C stores both in its images (crates/object_image), whose laws give back the lease of an address that is not leased too.
#[derive(Clone, Copy)]
pub struct ShortAddress {
    pub bytes: [u8; 2],
    pub leased: bool,
    pub lease: u64,
}

// The value counts where it is taken.
#[derive(Clone, Copy)]
pub struct AddressParameter {
    pub disposition: Disposition,
    pub value: ShortAddress,
}

// A parameter with no value.
pub fn no_address(report: Disposition) -> AddressParameter
    ensures { result ≡ no_address_parameter report }
{
    AddressParameter {
        disposition: report,
        value: ShortAddress {
            bytes: [0u8; 2],
            leased: false,
            lease: 0,
        },
    }
}

impl AddressParameter {
    // The same parameter, made anew field by field, as crate::octets does it.
    pub fn repacked(self) -> AddressParameter
        ensures { result ≡ self }
    {
        let report = self.disposition;
        let held = self.value;
        let bytes = held.bytes;
        let value = ShortAddress {
            bytes,
            leased: held.leased,
            lease: held.lease,
        };
        AddressParameter {
            disposition: report,
            value,
        }
    }
}

// The address that some bytes are; what is no address is discarded.
fn address_from(bytes: &[u8], leased: bool, lease: u64) -> AddressParameter
    ensures { read result ≡ address_concluded (address_by bytes.now leased lease) }
{
    short_address::laws();
    if bytes.len() != 2 {
        return no_address(Disposition::Discarded);
    }
    let pair = [bytes[0], bytes[1]];
    if !is_address(pair) {
        return no_address(Disposition::Discarded);
    }
    AddressParameter {
        disposition: Disposition::Taken,
        value: ShortAddress {
            bytes: pair,
            leased,
            lease,
        },
    }
}

// The rest of a short address after its byte string: nothing, or a lease; `left` members are left.
fn lease_after(
    s: &[u8],
    start: usize,
    len: usize,
    left: u64,
) -> Result<(AddressParameter, usize), Refusal>
    requires { start + len ≤ length s.now }
    ensures value { read_by result ≡ address_concluded (address_in (string_and s.now start len left)) }
    ensures rest { Continues s.now result (after_members left (drop (start + len) s.now)) }
{
    let end = start + len;
    let bytes = &s[start..end];
    if left == 0 {
        return Ok((address_from(bytes, false, 0), end));
    }
    let Member::Number { number, next } = member_at(s, end, left) else {
        return Err(Refusal::Type);
    };
    if left != 1 {
        return Err(Refusal::Type);
    }
    Ok((address_from(bytes, true, number), next))
}

// The short address whose `count` members begin at a place.
fn address_members(s: &[u8], at: usize, count: u64) -> Result<(AddressParameter, usize), Refusal>
    ensures value { read_by result ≡ address_concluded (address_in (members_at count (drop at s.now))) }
    ensures rest { Continues s.now result (after_members count (drop at s.now)) }
{
    let Member::Bytes { start, len } = member_at(s, at, count) else {
        return Err(Refusal::Type);
    };
    lease_after(s, start, len, count - 1)
}

// The short address at a place of a payload that passed the item scan, and where the bytes go on after it; of other bytes it says what
// `value_view` makes of them.
pub fn read_address(s: &[u8], at: usize) -> Result<(AddressParameter, usize), Refusal>
    ensures value { read_by result ≡ address_read (value_view (drop at s.now)) }
    ensures rest { Continues s.now result (after_value (drop at s.now)) }
{
    let Value::Array { start, count } = value_at(s, at) else {
        return Err(Refusal::Type);
    };
    address_members(s, start, count)
}
