// What a node holds of the configurations that it took, in an image.
ghost use Rattle.std.specs.Prelude.{◌≡◌, ◌+◌, ◌≤◌, length, drop};
ghost use Rattle.byte_io.specs.Write.{Wrote};
ghost use Rattle.node_image.specs.Held.{held_octets_part, held_address_part, held_list_part, held_rate_part};

use image::{number_at, put_number};
use node_parameters::{HeldAddress, HeldList, HeldOctets, HeldRate};
use object_image::{
    bool_at, is_bool, is_short_address, list_at, octets_at, put_bool, put_list, put_octets,
    put_short_address, short_address_at,
};

// Kept: a flag beside a value, not an Option: an image whose flag is 0 keeps the value's bytes (NodeImages, `back` of RoundTrips).

// The byte string at a place.
pub fn held_octets_at(src: &[u8], at: usize) -> HeldOctets
    requires { at + 18 ≤ length src.now }
    ensures { result ≡ held_octets_part.get (drop at src.now) }
{
    HeldOctets {
        held: bool_at(src, at),
        value: octets_at(src, at + 1),
    }
}

// Writes a byte string.
pub fn put_held_octets(dst: &mut [u8], octets: HeldOctets)
    requires { 18 ≤ length dst.old }
    ensures { Wrote (held_octets_part.put octets) dst.old 18 dst.new }
{
    put_bool(dst, octets.held);
    put_octets(&mut dst[1..], octets.value);
}

// Whether a short address stands at a place: held or not, leased or not.
pub fn is_held_address(src: &[u8], at: usize) -> bool
    requires { at + 20 ≤ length src.now }
    ensures { result ≡ held_address_part.good (drop at src.now) }
{
    is_bool(src, at) && is_short_address(src, at + 1)
}

// The short address at a place.
pub fn held_address_at(src: &[u8], at: usize) -> HeldAddress
    requires { at + 20 ≤ length src.now }
    ensures { result ≡ held_address_part.get (drop at src.now) }
{
    HeldAddress {
        held: bool_at(src, at),
        value: short_address_at(src, at + 1),
        received: number_at(src, at + 12, 8),
    }
}

// Writes a short address.
pub fn put_held_address(dst: &mut [u8], address: HeldAddress)
    requires { 20 ≤ length dst.old }
    ensures { Wrote (held_address_part.put address) dst.old 20 dst.new }
{
    put_bool(dst, address.held);
    put_short_address(&mut dst[1..], address.value);
    put_number(&mut dst[12..], 8, address.received);
}

// The blacklist at a place.
pub fn held_list_at(src: &[u8], at: usize) -> HeldList
    requires { at + 256 ≤ length src.now }
    ensures { result ≡ held_list_part.get (drop at src.now) }
{
    HeldList {
        held: bool_at(src, at),
        value: list_at(src, at + 1),
    }
}

// Writes a blacklist.
pub fn put_held_list(dst: &mut [u8], list: HeldList)
    requires { 256 ≤ length dst.old }
    ensures { Wrote (held_list_part.put list) dst.old 256 dst.new }
{
    put_bool(dst, list.held);
    put_list(&mut dst[1..], list.value);
}

// The join rate at a place.
pub fn held_rate_at(src: &[u8], at: usize) -> HeldRate
    requires { at + 9 ≤ length src.now }
    ensures { result ≡ held_rate_part.get (drop at src.now) }
{
    HeldRate {
        held: bool_at(src, at),
        value: number_at(src, at + 1, 8),
    }
}

// Writes a join rate.
pub fn put_held_rate(dst: &mut [u8], rate: HeldRate)
    requires { 9 ≤ length dst.old }
    ensures { Wrote (held_rate_part.put rate) dst.old 9 dst.new }
{
    put_bool(dst, rate.held);
    put_number(&mut dst[1..], 8, rate.value);
}
