// A key.
ghost use Rattle.std.specs.Prelude.{◌≡◌, ◌+◌, ◌≤◌, length, drop};
ghost use Rattle.byte_io.specs.Write.{Wrote};
ghost use Rattle.key_image.specs.Key.{key_part};

use crate::additional_info::{additional_info_at, is_additional_info, put_additional_info};
use image::{array_at, put_array, put_byte};
use link_key::Key;

// The key from a place on.
pub fn key_at(src: &[u8], at: usize) -> Key
    requires { at + 27 ≤ length src.now }
    ensures { result ≡ key_part.get (drop at src.now) }
{
    Key {
        identifier: src[at],
        usage: src[at + 1],
        value: array_at(src, at + 2),
        info: additional_info_at(src, at + 18),
    }
}

// Whether a key stands there: any bytes are one whose additional information is.
pub fn is_key(src: &[u8], at: usize) -> bool
    requires { at + 27 ≤ length src.now }
    ensures { result ≡ key_part.good (drop at src.now) }
{
    is_additional_info(src, at + 18)
}

// Writes a key.
pub fn put_key(dst: &mut [u8], key: Key)
    requires { 27 ≤ length dst.old }
    ensures { Wrote (key_part.put key) dst.old 27 dst.new }
{
    put_byte(dst, key.identifier);
    put_byte(&mut dst[1..], key.usage);
    put_array(&mut dst[2..], &key.value);
    put_additional_info(&mut dst[18..], key.info);
}
