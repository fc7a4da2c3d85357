// The key sets of a node's image.
ghost use Rattle.std.specs.Prelude.{true, ◌&&◌, ◌||◌, ◌≡◌, ◌+◌, ◌≤◌, leb, length, drop};
ghost use Rattle.image.specs.Part.{gets};
ghost use Rattle.key_image.specs.Key.{key_part, key_set_part, counted_set_part};
ghost use Rattle.link_key.specs.Key.{has_no_additional_info};
ghost use Rattle.link_key.specs.set.KeySet.{keys_of};
ghost use Rattle.link_key.specs.set.Seen.{joins, noted};
ghost use Rattle.node_key_sets.specs.Sets.{two_sets, valid_as};
ghost use Rattle.capi_judge.specs.Judge.{passes, all_noted};

use crate::flags::set_flag;
use link_key::set::seen::{flags_law, none_seen};

// Whether the key at an offset has no additional information, or may have it.
fn info_allowed(src: &[u8], at: usize, allowed: bool) -> bool
    requires { at + 27 ≤ length src.now }
    ensures { result ≡ (allowed || has_no_additional_info (key_part.get (drop at src.now))) }
{
    allowed || src[at + 18] == 0
}

// Whether the key at an offset joins those before it.
fn key_joins(src: &[u8], at: usize, seen: &mut [u32; 8]) -> bool
    requires { at + 27 ≤ length src.now }
    ensures told { result ≡ joins seen.old (key_part.get (drop at src.now)) }
    ensures after { seen.new ≡ noted seen.old (key_part.get (drop at src.now)) }
{
    let identifier = src[at];
    if identifier == 0 {
        return false;
    }
    if 14 < src[at + 1] {
        return false;
    }
    set_flag(seen, identifier)
}

// The same of so many keys from an offset on; the table is promised only where all join.
fn keys_join(src: &[u8], at: usize, count: usize, allowed: bool, seen: &mut [u32; 8]) -> bool
    requires { (at + 216 ≤ length src.now) × (count ≤ 8) }
    ensures told { result ≡ passes allowed seen.old (gets key_part count (drop at src.now)) }
    ensures after { result ≡ true
        → seen.new ≡ all_noted seen.old (gets key_part count (drop at src.now)) }
{
    for i in 0..count {
        let k = at + 27 * i;
        if !info_allowed(src, k, allowed) {
            return false;
        }
        if !key_joins(src, k, seen) {
            return false;
        }
    }
    true
}

// The same of the key set at an offset: at most eight keys.
fn set_joins(src: &[u8], at: usize, allowed: bool, seen: &mut [u32; 8]) -> bool
    requires { at + 217 ≤ length src.now }
    ensures told { result ≡ (leb (key_set_part.get (drop at src.now)).count 8
        && passes allowed seen.old (keys_of (key_set_part.get (drop at src.now)))) }
    ensures after { result ≡ true
        → seen.new ≡ all_noted seen.old (keys_of (key_set_part.get (drop at src.now))) }
{
    let count = usize::from(src[at]);
    if 8 < count {
        return false;
    }
    keys_join(src, at + 1, count, allowed, seen)
}

// Whether the two key sets from an offset on may stand together: within the version's limits, no identifier twice in all, none pending
// at a border node.
pub(crate) fn sets_valid_in(src: &[u8], at: usize, border: bool, allowed: bool) -> bool
    requires { at + 498 ≤ length src.now }
    ensures { result ≡ valid_as allowed border
        (two_sets (counted_set_part.get (drop at src.now)) (counted_set_part.get (drop (at + 249) src.now))) }
{
    link_key::set::laws();
    flags_law();
    let mut seen = none_seen();
    if !set_joins(src, at, allowed, &mut seen) {
        return false;
    }
    if !set_joins(src, at + 249, allowed, &mut seen) {
        return false;
    }
    !border || src[at + 249] == 0
}
