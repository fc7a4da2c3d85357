// A key set with counters.
ghost use Rattle.std.specs.Prelude.{◌≡◌, ◌+◌, ◌≤◌, length, take, drop};
ghost use Rattle.byte_io.specs.Write.{Wrote};
ghost use Rattle.byte_io.specs.BigEndian.{big_endian};
ghost use Rattle.image.specs.Part.{number, puts, gets};
ghost use Rattle.key_image.specs.Key.{counted_set_part};

use crate::key_set::{is_key_set, keys_at, put_key_set};
use image::{array_at, number_at, put_number};
use link_key::set::KeySet;
use link_key_counters::CountedSet;

// The bytes of a counter.
const SIZE: usize = 4;

// A counter of four bytes, from a place on.
pub fn counter_at(src: &[u8], at: usize) -> u32
    requires { at + 4 ≤ length src.now }
    ensures { result ≡ big_endian (take 4 (drop at src.now)) }
{
    u32::from_be_bytes(array_at(src, at))
}

// Eight counters from a place on.
fn counters_at(src: &[u8], at: usize) -> [u32; 8]
    requires { at + 32 ≤ length src.now }
    ensures { result ≡ gets (number 4) 8 (drop at src.now) }
{
    let mut counters = [0; 8];
    for i in 0..8 {
        counters[i] = counter_at(src, at + SIZE * i);
    }
    counters
}

// The key set with counters from a place on. Its keys are read here and not by `key_set_at`, whose answer would be copied: that is 20 ns
// less for every call that loads a node.
pub fn counted_set_at(src: &[u8], at: usize) -> CountedSet
    requires { at + 249 ≤ length src.now }
    ensures { result ≡ counted_set_part.get (drop at src.now) }
{
    let count = number_at(src, at, 1) as usize;
    let keys = keys_at(src, at + 1);
    let counters = counters_at(src, at + 217);
    let set = KeySet { count, keys };
    CountedSet { set, counters }
}

// Whether a key set with counters stands there: any counters are some.
pub fn is_counted_set(src: &[u8], at: usize) -> bool
    requires { at + 249 ≤ length src.now }
    ensures { result ≡ counted_set_part.good (drop at src.now) }
{
    is_key_set(src, at)
}

// Writes eight counters.
pub fn put_eight_counters(dst: &mut [u8], counters: [u32; 8])
    requires { 32 ≤ length dst.old }
    ensures { Wrote (puts (number 4) counters) dst.old 32 dst.new }
{
    put_counters(dst, &counters);
}

fn put_counters(dst: &mut [u8], counters: &[u32; 8])
    requires { 32 ≤ length dst.old }
    ensures { Wrote (puts (number 4) counters.now) dst.old 32 dst.new }
{
    for (i, counter) in counters.iter().enumerate() {
        put_number(&mut dst[SIZE * i..], SIZE, *counter as u64);
    }
}

// Writes a key set with counters.
pub fn put_counted_set(dst: &mut [u8], counted: CountedSet)
    requires { 249 ≤ length dst.old }
    ensures { Wrote (counted_set_part.put counted) dst.old 249 dst.new }
{
    put_key_set(dst, counted.set);
    put_counters(&mut dst[217..], &counted.counters);
}
