// Short addresses, with their lease.
ghost use Rattle.std.specs.Prelude.{◌≡◌, ◌+◌, ◌≤◌, length, drop};
ghost use Rattle.byte_io.specs.Write.{Wrote};
ghost use Rattle.object_image.specs.Address.{short_address_part, address_parameter_part};

use crate::codes::{bool_at, disposition_at, is_bool, is_disposition, put_bool, put_disposition};
use cojp::{AddressParameter, ShortAddress};
use image::{array_at, number_at, put_array, put_number};

// Whether the bytes at a place are a short address: it is leased or not.
pub fn is_short_address(s: &[u8], at: usize) -> bool
    requires { at + 11 ≤ length s.now }
    ensures { result ≡ short_address_part.good (drop at s.now) }
{
    is_bool(s, at + 2)
}

// The short address at a place.
pub fn short_address_at(s: &[u8], at: usize) -> ShortAddress
    requires { at + 11 ≤ length s.now }
    ensures { result ≡ short_address_part.get (drop at s.now) }
{
    ShortAddress {
        bytes: array_at(s, at),
        leased: bool_at(s, at + 2),
        lease: number_at(s, at + 3, 8),
    }
}

// Writes a short address.
pub fn put_short_address(dst: &mut [u8], address: ShortAddress)
    requires { 11 ≤ length dst.old }
    ensures { Wrote (short_address_part.put address) dst.old 11 dst.new }
{
    put_array(dst, &address.bytes);
    put_bool(&mut dst[2..], address.leased);
    put_number(&mut dst[3..], 8, address.lease);
}

// Whether the bytes at a place are a short address as a parameter.
pub fn is_address_parameter(s: &[u8], at: usize) -> bool
    requires { at + 12 ≤ length s.now }
    ensures { result ≡ address_parameter_part.good (drop at s.now) }
{
    is_disposition(s, at) && is_short_address(s, at + 1)
}

// The parameter at a place.
pub fn address_parameter_at(s: &[u8], at: usize) -> AddressParameter
    requires { at + 12 ≤ length s.now }
    ensures { result ≡ address_parameter_part.get (drop at s.now) }
{
    AddressParameter {
        disposition: disposition_at(s, at),
        value: short_address_at(s, at + 1),
    }
}

// Writes a short address as a parameter.
pub fn put_address_parameter(dst: &mut [u8], parameter: AddressParameter)
    requires { 12 ≤ length dst.old }
    ensures { Wrote (address_parameter_part.put parameter) dst.old 12 dst.new }
{
    put_disposition(dst, parameter.disposition);
    put_short_address(&mut dst[1..], parameter.value);
}
