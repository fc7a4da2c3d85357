// Byte strings, numbers and labels, where there is room for them.
ghost use Rattle.std.specs.Prelude.{◌++◌, ◌+◌, ◌≤◌, length};
ghost use Rattle.byte_io.specs.Write.{Wrote};
ghost use Rattle.cbor.specs.Encode.{shortest, encode, encodes};
ghost use Rattle.cbor.specs.Item.{bytes};
ghost use Rattle.cojp.specs.Writing.{lease_items};

use crate::octets::put_head;
use cbor::write::write_bytes;

// A byte string.
pub(crate) fn put_bytes(dst: &mut [u8], s: &[u8]) -> usize
    requires { length (encode (bytes s.now)) ≤ length dst.old }
    ensures { Wrote (encode (bytes s.now)) dst.old result dst.new }
{
    write_bytes(dst, s).unwrap_or(0)
}

// A number, where there is one.
pub(crate) fn put_optional(dst: &mut [u8], given: bool, number: u64) -> usize
    requires { length (encodes (lease_items given number)) ≤ length dst.old }
    ensures { Wrote (encodes (lease_items given number)) dst.old result dst.new }
{
    if given {
        return put_head(dst, 0, number);
    }
    0
}

// A label and the head of its value.
pub(crate) fn put_labelled(dst: &mut [u8], label: u64, major: u8, argument: u64) -> usize
    requires { (major ≤ 7) × (length (shortest 0 label) + length (shortest major argument) ≤ length dst.old) }
    ensures { Wrote (shortest 0 label ++ shortest major argument) dst.old result dst.new }
{
    let n = put_head(dst, 0, label);
    n + put_head(&mut dst[n..], major, argument)
}
