// The array that a list is, written. Its callers judged the list: no one else may write one.
ghost use Rattle.std.specs.Prelude.{◌++◌, ◌+◌, ◌≤◌, length};
ghost use Rattle.byte_io.specs.Write.{Did, Wrote};
ghost use Rattle.cbor.specs.Encode.{shortest};
ghost use Rattle.cojp.specs.Lists.{bytes_in, list_plan};

use crate::octets::put::put_head;
use cbor::write::head_len;
use cojp::ItemList;
use refusal::Refusal;

// The head of the list's count, and its bytes.
fn put_judged(dst: &mut [u8], l: ItemList) -> usize
    requires { (l.len ≤ 253) × (length (shortest 4 l.count) + length (bytes_in l) ≤ length dst.old) }
    ensures { Wrote (shortest 4 l.count ++ bytes_in l) dst.old result dst.new }
{
    let n = put_head(dst, 4, l.count);
    n + byte_io::copy_bytes(&l.bytes[..l.len], &mut dst[n..])
}

// Writes the array that a list is, the head of its count and its bytes: RANGE where it has more than 253, ROOM, or the length written.
fn write_list(dst: &mut [u8], l: ItemList) -> Result<usize, Refusal>
    ensures { Did (list_plan l) dst.old result dst.new }
{
    cbor::head_laws();
    if 253 < l.len {
        return Err(Refusal::Range);
    }
    if dst.len() < head_len(l.count) + l.len {
        return Err(Refusal::Room);
    }
    Ok(put_judged(dst, l))
}

// The same where the list was judged and has room.
pub(crate) fn put_array(dst: &mut [u8], l: ItemList) -> usize
    requires { (l.len ≤ 253) × (length (shortest 4 l.count) + length (bytes_in l) ≤ length dst.old) }
    ensures { Wrote (shortest 4 l.count ++ bytes_in l) dst.old result dst.new }
{
    write_list(dst, l).unwrap_or(0)
}
