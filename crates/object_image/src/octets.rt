// Byte strings of at most 16 bytes.
ghost use Rattle.std.specs.Prelude.{◌≡◌, ◌+◌, ◌≤◌, length, drop};
ghost use Rattle.byte_io.specs.Write.{Wrote};
ghost use Rattle.object_image.specs.Octets.{octets_part, octets_parameter_part};

use crate::codes::{disposition_at, is_disposition, put_disposition};
use cojp::{Octets, OctetsParameter};
use image::{array_at, number_at, put_array, put_number};

// The byte string at a place.
pub fn octets_at(s: &[u8], at: usize) -> Octets
    requires { at + 17 ≤ length s.now }
    ensures { result ≡ octets_part.get (drop at s.now) }
{
    Octets {
        len: number_at(s, at, 1) as usize,
        bytes: array_at(s, at + 1),
    }
}

// Writes a byte string.
pub fn put_octets(dst: &mut [u8], octets: Octets)
    requires { 17 ≤ length dst.old }
    ensures { Wrote (octets_part.put octets) dst.old 17 dst.new }
{
    put_number(dst, 1, octets.len as u64);
    put_array(&mut dst[1..], &octets.bytes);
}

// Whether the bytes at a place are a byte string as a parameter.
pub fn is_octets_parameter(s: &[u8], at: usize) -> bool
    requires { at + 18 ≤ length s.now }
    ensures { result ≡ octets_parameter_part.good (drop at s.now) }
{
    is_disposition(s, at)
}

// The parameter at a place.
pub fn octets_parameter_at(s: &[u8], at: usize) -> OctetsParameter
    requires { at + 18 ≤ length s.now }
    ensures { result ≡ octets_parameter_part.get (drop at s.now) }
{
    OctetsParameter {
        disposition: disposition_at(s, at),
        value: octets_at(s, at + 1),
    }
}

// Writes a byte string as a parameter.
pub fn put_octets_parameter(dst: &mut [u8], parameter: OctetsParameter)
    requires { 18 ≤ length dst.old }
    ensures { Wrote (octets_parameter_part.put parameter) dst.old 18 dst.new }
{
    put_disposition(dst, parameter.disposition);
    put_octets(&mut dst[1..], parameter.value);
}
