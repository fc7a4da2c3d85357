// CBOR data items (RFC 7049) are passed over where they stand, and a whole payload is scanned: any bytes, any place.
ghost use Rattle.std.specs.Prelude.{◌≡◌, ℕ, ◌≤◌, ◌<◌, length, drop};
ghost use Rattle.cbor.specs.Answer.{skip_answer, scan_answer};
ghost use Rattle.cbor.specs.Decode.{decode_by, members, payload_by};
ghost use Rattle.cbor.specs.ReaderSpecs.{SkipSpec, OpenSpec};
ghost use Rattle.cbor.specs.Strict.{head_by};

use crate::head::{read_head, read_head_by};
use crate::item::MapHead;
use refusal::Refusal;

// Document 01's limit: the outermost item is level 1, and none may begin at level 9.
pub const LEVELS: u8 = 8;

// The place itself, or the end where the place lies past it.
fn inside(s: &[u8], at: usize) -> usize
    ensures { (result ≤ length s.now) × (drop result s.now ≡ drop at s.now) }
{
    at.min(s.len())
}

// Passes over the item at a place, where so many levels are left; a strict scan refuses heads that are not the shortest.
// A call here is at most 2 × levels + 1 calls deep, whatever counts the heads announce. A tag's content gets a slice of its own: if `s`
// itself were handed on, each call would fetch its two words from memory as one, and wait for them.
#[cycle(skip_item_skip_members)]
pub fn skip_item(s: &[u8], at: usize, levels: u8, strict: bool) -> Result<usize, Refusal>
    ensures { SkipSpec s.now (decode_by (head_by strict) levels (drop at s.now)) result }
{
    if levels == 0 {
        return Err(Refusal::Deep);
    }
    let below = levels - 1;
    let head = read_head_by(s, at, strict)?;
    let next = head.next;
    let argument = head.argument;
    match head.major {
        2 | 3 => {
            let len = argument as usize;
            if len <= s.len() - next {
                Ok(next + len)
            } else {
                Err(Refusal::Cut)
            }
        }
        4 => skip_members(s, next, below, argument, strict),
        5 => {
            let half = skip_members(s, next, below, argument, strict)?;
            skip_members(s, half, below, argument, strict)
        }
        6 => skip_item(&s[0..], next, below, strict),
        _ => Ok(next),
    }
}

// Where an item without members (a number, a string, a simple value) at a place ends. None says nothing: then `skip_item` is asked. It is
// there for speed: a call hands the slice on by way of memory, and so only items with members, or faults, make one.
fn plain_end(s: &[u8], at: usize, strict: bool) -> Option<usize>
    ensures { (p : ℕ) → result ≡ Some p → (d : ℕ) → 0 < d →
        SkipSpec s.now (decode_by (head_by strict) d (drop at s.now)) (Ok p) }
{
    let Ok(head) = read_head_by(s, at, strict) else {
        return None;
    };
    let next = head.next;
    match head.major {
        4 | 5 | 6 => None,
        2 | 3 => {
            let len = head.argument as usize;
            let room = s.len() - next;
            if len <= room { Some(next + len) } else { None }
        }
        _ => Some(next),
    }
}

// Passes over `count` items from a place on, each with so many levels left. A map of n pairs is n items and n items again.
// `plain_end` knows no levels: where none is left, `skip_item` refuses items without members too.
#[cycle(skip_item_skip_members)]
pub(crate) fn skip_members(
    s: &[u8],
    at: usize,
    levels: u8,
    count: u64,
    strict: bool,
) -> Result<usize, Refusal>
    ensures { result
        ≡ skip_answer (length s.now) (members (decode_by (head_by strict) levels) count (drop at s.now)) }
{
    let mut p = inside(s, at);
    for _ in 0..count {
        p = match plain_end(s, p, strict) {
            Some(end) if 0 < levels => end,
            _ => skip_item(s, p, levels, strict)?,
        };
    }
    Ok(p)
}

// The item scan of a whole payload, EXTRA included.
pub fn scan(s: &[u8], strict: bool) -> Result<(), Refusal>
    ensures { result ≡ scan_answer (payload_by (head_by strict) s.now) }
{
    let end = skip_item(s, 0, LEVELS, strict)?;
    if end < s.len() {
        return Err(Refusal::Extra);
    }
    Ok(())
}

// Scans a payload and opens its outermost item, if it is a map: the one way by which the layer above begins to read.
pub fn open_map(s: &[u8], strict: bool) -> Result<Option<MapHead>, Refusal>
    ensures { OpenSpec strict s.now result }
{
    scan(s, strict)?;
    let head = read_head(s, 0)?;
    if head.major != 5 {
        return Ok(None);
    }
    Ok(Some(MapHead {
        count: head.argument,
        start: head.next,
    }))
}
