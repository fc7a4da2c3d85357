// Byte strings.
ghost use Rattle.byte_io.specs.Write.{Did, emit};
ghost use Rattle.cbor.specs.Encode.{encode};
ghost use Rattle.cbor.specs.Item.{bytes};

use crate::write::head::{head_len, put_head};
use refusal::Refusal;

// Writes a byte string, head and bytes.
pub fn write_bytes(dst: &mut [u8], s: &[u8]) -> Result<usize, Refusal>
    ensures { Did (emit (encode (bytes s.now))) dst.old result dst.new }
{
    let n = s.len();
    let h = head_len(n as u64);
    let whole = h + n;
    if dst.len() < whole {
        return Err(Refusal::Room);
    }
    put_head(dst, 2, n as u64, h);
    byte_io::copy_bytes(s, &mut dst[h..]);
    Ok(whole)
}
