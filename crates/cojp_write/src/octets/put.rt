// Writers for which there is room: they answer the length written.
ghost use Rattle.std.specs.Prelude.{true, ◌≡◌, ◌≤◌, length};
ghost use Rattle.byte_io.specs.Write.{Wrote};
ghost use Rattle.cbor.specs.Encode.{shortest, encode_pairs};
ghost use Rattle.cojp.specs.Writing.{octets_pairs};
ghost use Rattle.cojp_write.specs.octets.Plan.{string_in_range, list_bytes, list_fits};

use crate::octets::list::write_list_parameter;
use crate::octets::write_octets;
use cbor::write::write_head;
use cojp::{ListParameter, OctetsParameter};

// A head.
pub(crate) fn put_head(dst: &mut [u8], major: u8, argument: u64) -> usize
    requires { (major ≤ 7) × (length (shortest major argument) ≤ length dst.old) }
    ensures { Wrote (shortest major argument) dst.old result dst.new }
{
    write_head(dst, major, argument).unwrap_or(0)
}

// A parameter that is a byte string, in range, where it is taken.
pub(crate) fn put_octets(dst: &mut [u8], label: u64, p: OctetsParameter) -> usize
    requires { (string_in_range label p ≡ true) × (length (encode_pairs (octets_pairs label p)) ≤ length dst.old) }
    ensures { Wrote (encode_pairs (octets_pairs label p)) dst.old result dst.new }
{
    write_octets(dst, label, p).unwrap_or(0)
}

// A list that is not over its array, where it is taken.
pub(crate) fn put_list(dst: &mut [u8], label: u64, p: ListParameter) -> usize
    requires { (list_fits p ≡ true) × (length (list_bytes label p) ≤ length dst.old) }
    ensures { Wrote (list_bytes label p) dst.old result dst.new }
{
    write_list_parameter(dst, label, p).unwrap_or(0)
}
