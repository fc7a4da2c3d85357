// A key set: a count, and eight keys.
ghost use Rattle.std.specs.Prelude.{◌≡◌, ◌+◌, ◌≤◌, length, drop};
ghost use Rattle.byte_io.specs.Write.{Wrote};
ghost use Rattle.image.specs.Part.{puts, gets, goods};
ghost use Rattle.key_image.specs.Key.{key_part, key_set_part};

use crate::key::{is_key, key_at, put_key};
use image::{number_at, put_number};
use link_key::set::KeySet;
use link_key::{Key, no_key};

// The bytes of a key.
const SIZE: usize = 27;

// Eight keys from a place on.
pub(crate) fn keys_at(src: &[u8], at: usize) -> [Key; 8]
    requires { at + 216 ≤ length src.now }
    ensures { result ≡ gets key_part 8 (drop at src.now) }
{
    let mut keys = [no_key(); 8];
    for i in 0..8 {
        keys[i] = key_at(src, at + SIZE * i);
    }
    keys
}

// The key set from a place on.
pub fn key_set_at(src: &[u8], at: usize) -> KeySet
    requires { at + 217 ≤ length src.now }
    ensures { result ≡ key_set_part.get (drop at src.now) }
{
    KeySet {
        count: number_at(src, at, 1) as usize,
        keys: keys_at(src, at + 1),
    }
}

// Whether eight keys stand there.
fn are_keys(src: &[u8], at: usize) -> bool
    requires { at + 216 ≤ length src.now }
    ensures { result ≡ goods key_part 8 (drop at src.now) }
{
    for i in 0..8 {
        if !is_key(src, at + SIZE * i) {
            return false;
        }
    }
    true
}

// Whether a key set stands there: any count is one, the keys are judged.
pub fn is_key_set(src: &[u8], at: usize) -> bool
    requires { at + 217 ≤ length src.now }
    ensures { result ≡ key_set_part.good (drop at src.now) }
{
    are_keys(src, at + 1)
}

// Writes eight keys.
fn put_keys(dst: &mut [u8], keys: &[Key; 8])
    requires { 216 ≤ length dst.old }
    ensures { Wrote (puts key_part keys.now) dst.old 216 dst.new }
{
    for (i, key) in keys.iter().enumerate() {
        put_key(&mut dst[SIZE * i..], *key);
    }
}

// Writes a key set; of a count over 255 the last byte.
pub fn put_key_set(dst: &mut [u8], set: KeySet)
    requires { 217 ≤ length dst.old }
    ensures { Wrote (key_set_part.put set) dst.old 217 dst.new }
{
    put_number(dst, 1, set.count as u64);
    put_keys(&mut dst[1..], &set.keys);
}
