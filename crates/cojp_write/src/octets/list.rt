// Parameters that are arrays kept as they are written (RFC 9031): the blacklist, the unsupported configuration.
ghost use Rattle.std.specs.Prelude.{◌≡◌, ◌≤◌, length};
ghost use Rattle.byte_io.specs.Write.{Did};
ghost use Rattle.cojp.specs.Lists.{bytes_in};
ghost use Rattle.cojp_write.specs.octets.Plan.{list_bytes, list_count, array_plan, list_parameter_plan};
ghost use Rattle.cojp_write.specs.octets.Size.{Sizes};

use crate::octets::array::put_array;
use crate::octets::put::put_head;
use crate::octets::size::{Size, no_size};
use cbor::write::head_len;
use cojp::{ItemList, ListParameter, is_taken};
use refusal::Refusal;

// How many bytes a list has: its length, and 253 where that is over 253.
fn known_len(value: ItemList) -> usize
    ensures exact { result ≡ length (bytes_in value) }
    ensures few { result ≤ 253 }
{
    value.len.min(253)
}

// How much there is to write of a parameter under a label.
pub(crate) fn list_size(label: u64, p: ListParameter) -> Size
    ensures { Sizes (list_count p) (list_bytes label p) 1 271 result }
{
    cbor::head_laws();
    if is_taken(p.disposition) {
        return Size {
            members: 1,
            bytes: head_len(label) + head_len(p.value.count) + known_len(p.value),
        };
    }
    no_size()
}

// Writes a label and the array that a list is: RANGE, ROOM, or the length written.
fn write_array(dst: &mut [u8], label: u64, l: ItemList) -> Result<usize, Refusal>
    ensures { Did (array_plan label l) dst.old result dst.new }
{
    cbor::head_laws();
    if 253 < l.len {
        return Err(Refusal::Range);
    }
    let whole = head_len(label) + head_len(l.count) + l.len;
    if dst.len() < whole {
        return Err(Refusal::Room);
    }
    let n = put_head(dst, 0, label);
    Ok(n + put_array(&mut dst[n..], l))
}

// Writes a parameter under a label, where it is taken: RANGE, ROOM, or the length written.
pub(crate) fn write_list_parameter(
    dst: &mut [u8],
    label: u64,
    p: ListParameter,
) -> Result<usize, Refusal>
    ensures { Did (list_parameter_plan label p) dst.old result dst.new }
{
    if is_taken(p.disposition) {
        return write_array(dst, label, p.value);
    }
    Ok(0)
}
