// What the writers of both objects share: parameters that are byte strings or kept lists, how much there is to write of them, and the laws
// of pairs that are written one after the other (proofs/).
// Parameters that are byte strings: the network identifier, the prefix, the JRC address.
mod array;
mod list;
mod put;
mod size;

ghost use Rattle.std.specs.Prelude.{◌≡◌, ◌≤◌, length};
ghost use Rattle.byte_io.specs.Write.{Did, emit};
ghost use Rattle.cbor.specs.Encode.{encode_pairs};
ghost use Rattle.cbor.specs.Item.{bytes};
ghost use Rattle.cojp.specs.Octets.{bytes_in};
ghost use Rattle.cojp.specs.Writing.{labelled, octets_pairs};
ghost use Rattle.cojp_write.specs.octets.Plan.{string_in_range, octets_plan};
ghost use Rattle.cojp_write.specs.octets.Size.{PairsSize};

use crate::configuration::put_bytes;
use crate::range::parameter::{jrc_in_range, octets_in_range};
use cbor::write::head_len;
use cojp::{Octets, OctetsParameter, is_taken};
pub(crate) use list::{list_size, write_list_parameter};
pub(crate) use put::{put_head, put_list, put_octets};
use refusal::Refusal;
pub use size::Size;
pub(crate) use size::{no_size, plus};

// How many bytes a byte string has: its length, and 16 where that is over 16.
fn known_len(value: Octets) -> usize
    ensures exact { result ≡ length (bytes_in value) }
    ensures few { result ≤ 16 }
{
    value.len.min(16)
}

// How much there is to write of a parameter under a label.
pub(crate) fn octets_size(label: u64, p: OctetsParameter) -> Size
    ensures { PairsSize (octets_pairs label p) 1 26 result }
{
    cbor::head_laws();
    if is_taken(p.disposition) {
        return Size {
            members: 1,
            bytes: head_len(label) + 1 + known_len(p.value),
        };
    }
    no_size()
}

// Writes a label and a byte string: ROOM, or the length written.
fn write_string(dst: &mut [u8], label: u64, s: &[u8]) -> Result<usize, Refusal>
    ensures { Did (emit (encode_pairs (labelled label (bytes s.now)))) dst.old result dst.new }
{
    cbor::head_laws();
    let whole = head_len(label) + head_len(s.len() as u64) + s.len();
    if dst.len() < whole {
        return Err(Refusal::Room);
    }
    let n = put_head(dst, 0, label);
    Ok(n + put_bytes(&mut dst[n..], s))
}

// What is in range, where it is taken: ROOM, or the length written.
fn emit_octets(dst: &mut [u8], label: u64, p: OctetsParameter) -> Result<usize, Refusal>
    ensures { Did (emit (encode_pairs (octets_pairs label p))) dst.old result dst.new }
{
    if is_taken(p.disposition) {
        return write_string(dst, label, &p.value.bytes[..known_len(p.value)]);
    }
    Ok(0)
}

// A JRC address, label 4, has 16 bytes; any other byte string at most 16.
fn string_in_range(label: u64, p: OctetsParameter) -> bool
    ensures { result ≡ string_in_range label p }
{
    if label == 4 {
        return jrc_in_range(p);
    }
    octets_in_range(p)
}

// Writes a parameter under a label, where it is taken: RANGE, ROOM, or the length written.
pub(crate) fn write_octets(dst: &mut [u8], label: u64, p: OctetsParameter) -> Result<usize, Refusal>
    ensures { Did (octets_plan label p) dst.old result dst.new }
{
    if string_in_range(label, p) {
        return emit_octets(dst, label, p);
    }
    Err(Refusal::Range)
}
