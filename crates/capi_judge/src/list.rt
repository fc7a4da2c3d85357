// A blacklist judged where its bytes stand.
ghost use Rattle.std.specs.Prelude.{◌≡◌, ◌≤◌, get_or};
ghost use Rattle.cojp.specs.Lists.{strings_in, kept};
ghost use Rattle.capi_judge.specs.Kept.{list_in, short_at};

use cojp::{Member, member_at};

// The byte at an offset; past the end zero.
fn byte_or_zero(s: &[u8], at: usize) -> usize
    ensures { result ≡ get_or s.now at 0 }
{
    s.get(at).copied().map_or(0, usize::from)
}

// Whether the head at an offset is the shortest one of a byte string of so many bytes.
fn is_short_at(s: &[u8], at: usize, n: usize) -> bool
    requires { (at ≤ 253) × (n ≤ 253) }
    ensures { result ≡ short_at s.now at n }
{
    let first = byte_or_zero(s, at);
    if n < 24 {
        return first == 64 + n;
    }
    first == 88 && byte_or_zero(s, at + 1) == n
}

// Whether the bytes are `count` byte strings with shortest heads, and nothing after them.
pub(crate) fn is_blacklist_in(s: &[u8], count: u64) -> bool
    ensures { result ≡ kept strings_in (list_in count s.now) }
{
    cbor::laws();
    if 253 < s.len() {
        return false;
    }
    let mut at: usize = 0;
    for left in (0..count).rev() {
        let Member::Bytes { start, len } = member_at(s, at, left + 1) else {
            return false;
        };
        if !is_short_at(s, at, len) {
            return false;
        }
        at = start + len;
    }
    at == s.len()
}
