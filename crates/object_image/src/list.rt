// Arrays that are kept as they are written.
ghost use Rattle.std.specs.Prelude.{◌≡◌, ◌+◌, ◌≤◌, length, drop};
ghost use Rattle.byte_io.specs.Write.{Wrote};
ghost use Rattle.object_image.specs.Lists.{list_part, list_parameter_part};

use crate::codes::{disposition_at, is_disposition, put_disposition};
use cojp::{ItemList, ListParameter};
use image::{array_at, number_at, put_array, put_number};

// The list at a place.
pub fn list_at(s: &[u8], at: usize) -> ItemList
    requires { at + 255 ≤ length s.now }
    ensures { result ≡ list_part.get (drop at s.now) }
{
    ItemList {
        count: number_at(s, at, 1),
        len: number_at(s, at + 1, 1) as usize,
        bytes: array_at(s, at + 2),
    }
}

// Writes a list.
pub fn put_list(dst: &mut [u8], list: ItemList)
    requires { 255 ≤ length dst.old }
    ensures { Wrote (list_part.put list) dst.old 255 dst.new }
{
    put_number(dst, 1, list.count);
    put_number(&mut dst[1..], 1, list.len as u64);
    put_array(&mut dst[2..], &list.bytes);
}

// Whether the bytes at a place are a list as a parameter.
pub fn is_list_parameter(s: &[u8], at: usize) -> bool
    requires { at + 256 ≤ length s.now }
    ensures { result ≡ list_parameter_part.good (drop at s.now) }
{
    is_disposition(s, at)
}

// The parameter at a place.
pub fn list_parameter_at(s: &[u8], at: usize) -> ListParameter
    requires { at + 256 ≤ length s.now }
    ensures { result ≡ list_parameter_part.get (drop at s.now) }
{
    ListParameter {
        disposition: disposition_at(s, at),
        value: list_at(s, at + 1),
    }
}

// Writes a list as a parameter.
pub fn put_list_parameter(dst: &mut [u8], parameter: ListParameter)
    requires { 256 ≤ length dst.old }
    ensures { Wrote (list_parameter_part.put parameter) dst.old 256 dst.new }
{
    put_disposition(dst, parameter.disposition);
    put_list(&mut dst[1..], parameter.value);
}
