// A blacklist (RFC 9031): an array of byte strings.
ghost use Rattle.std.specs.Prelude.{◌≡◌, drop};
ghost use Rattle.cojp.specs.Bytes.{value_view, members_at};
ghost use Rattle.cojp.specs.Lists.{fitting, strings_in, in_array, list_answer};
ghost use Rattle.cojp_list.specs.Gathered.{GatheredAs};

use crate::list::{Gathered, bad_list, list_read};
use cbor::write::write_bytes;
use cbor::{Value, value_at};
use cojp::{ItemList, ListRead, Member, member_at};

// Writes the byte strings that `count` members from a place on are; None where one is none, or has no room.
fn gather_strings(s: &[u8], from: usize, count: u64, dst: &mut [u8]) -> Option<Gathered>
    ensures { GatheredAs (strings_in (members_at count (drop from s.now))) dst.old result dst.new }
{
    cbor::head_laws();
    let mut at = from;
    let mut len = 0;
    for i in 0..count {
        let Member::Bytes { start, len: n } = member_at(s, at, count - i) else {
            return None;
        };
        let end = start + n;
        let Ok(k) = write_bytes(&mut dst[len..], &s[start..end]) else {
            return None;
        };
        len += k;
        at = end;
    }
    Some(Gathered {
        members: count,
        len,
    })
}

// The byte strings that `count` members from a place on are, as a list.
pub(crate) fn read_strings(s: &[u8], from: usize, count: u64) -> ListRead
    ensures { result ≡ list_answer (fitting 253 (strings_in (members_at count (drop from s.now)))) }
{
    let mut bytes = [0u8; 253];
    let gathered = gather_strings(s, from, count, &mut bytes);
    list_read(gathered, bytes)
}

// The array of byte strings at a place.
pub fn read_blacklist(s: &[u8], at: usize) -> ListRead
    ensures { result ≡ list_answer (fitting 253 (in_array strings_in (value_view (drop at s.now)))) }
{
    match value_at(s, at) {
        Value::Array { start, count } => read_strings(s, start, count),
        _ => bad_list(),
    }
}
