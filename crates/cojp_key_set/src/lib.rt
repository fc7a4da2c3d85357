// Link-layer key sets are read: a flat array of groups, each an identifier, perhaps a usage, a value and perhaps, where keys may have it,
// additional information.
#![tactic(auto)]

pub mod additional_info;
pub mod group;

ghost use Rattle.std.specs.Prelude.{◌≡◌, true, cond, ◌&&◌, ltb, ◌+◌, ◌≤◌, ◌<◌, length, take, drop};
ghost use Rattle.link_key.specs.Key.{key_with_additional_info};
ghost use Rattle.link_key.specs.set.Seen.{joins, WithOneMore};
ghost use Rattle.cojp.specs.Bytes.{value_view, members_at, after_value, after_members, EndsAt};
ghost use Rattle.cojp.specs.KeySet.{groups, keys_in, keys_concluded, keys_read_as, keys_answer};
ghost use Rattle.cojp.specs.Reading.{refused, unfit, good, Accepting};
ghost use Rattle.cojp_key_set.specs.Groups.{additional_info_before, storable, some_few};

use crate::additional_info::additional_info_at;
use crate::group::{Group, read_group};
use cbor::{Value, value_at};
use cojp::{Disposition, KeysParameter, KeysRead, copied, no_key_set};
use link_key::set::KeySet;
use link_key::set::seen::{join, none_seen};
use link_key::{AdditionalInfo, Key, key_with, no_key};
use refusal::Refusal;

fn refused_keys(why: Refusal) -> KeysRead
    ensures { result ≡ keys_answer (refused why) 0 }
{
    let none = no_key_set(Disposition::Absent);
    KeysRead {
        verdict: Err(why),
        parameter: none,
        next: 0,
    }
}

// Whether a key set of `n` keys has a place that can hold a key of these numbers and this length.
fn is_storable(n: usize, identifier: u64, usage: u64, len: usize) -> bool
    ensures { result ≡ (ltb n 8 && storable identifier usage len) }
{
    n < 8 && identifier <= 255 && usage <= 255 && len == 16
}

// The key of a group that a place can hold. The reader of the group has found its additional information good; of no bytes it is absent.
fn group_key(part: &[u8], group: Group) -> Key
    requires len_value { storable group.identifier group.usage group.len ≡ true }
    requires len_in_bounds { group.start + group.len ≤ length part.now }
    requires extra_in_bounds { (group.extra ≤ group.next) × (group.next ≤ length part.now) }
    ensures { result ≡ key_with_additional_info group.identifier group.usage (take group.len (drop group.start part.now))
        (additional_info_before part.now group.next group.extra) }
{
    let value = copied(part, group.start, group.len);
    let info = additional_info_at(part, group.next - group.extra, group.extra);
    let info = info.unwrap_or(AdditionalInfo::Absent);
    let (identifier, usage) = (group.identifier as u8, group.usage as u8);
    key_with(identifier, usage, value, info)
}

// How many keys a set of `n` has with the key: one more if it joins them, else nine, which no set has.
fn count_with(seen: &mut [u32; 8], n: usize, key: Key) -> usize
    requires { n < 8 }
    ensures value { result ≡ cond (joins seen.old key) (n + 1) 9 }
    ensures so_far { WithOneMore seen.old key (joins seen.old key) seen.new }
{
    if join(seen, key) { n + 1 } else { 9 }
}

// The parameter that a gathered set is, if it has 1 to 8 keys; the set ends at `next`.
fn close_set(set: KeySet, next: usize) -> KeysRead
    ensures value { result ≡ keys_answer (keys_concluded (cond (some_few set) (good set) unfit)) result.next }
    ensures rest { Accepting result.verdict (result.next ≡ next) }
{
    if set.count == 0 || 8 < set.count {
        return refused_keys(Refusal::Keys);
    }
    let parameter = KeysParameter {
        disposition: Disposition::Taken,
        value: set,
    };
    KeysRead {
        verdict: Ok(()),
        parameter,
        next,
    }
}

// The key set whose `count` members begin at a place:
// the pattern to its end, and then the limits, which each key has met or not as it came.
fn gather_keys(s: &[u8], from: usize, count: u64, allowed: bool) -> KeysRead
    requires { from ≤ length s.now }
    ensures value { result ≡ keys_answer (keys_concluded (keys_in (groups allowed (members_at count (drop from s.now))))) result.next }
    ensures rest { Accepting result.verdict (EndsAt s.now result.next (after_members count (drop from s.now))) }
{
    let mut at = from;
    let mut remaining = count;
    let none = no_key();
    let mut n: usize = 0;
    let mut keys = [none; 8];
    let mut seen = none_seen();
    // Kept: no loop over an index. The reader of a group says where the next one begins and how many members are left.
    while 0 < remaining {
        let part = &s[at..];
        let Some(group) = read_group(part, remaining, allowed) else {
            return refused_keys(Refusal::Type);
        };
        if is_storable(n, group.identifier, group.usage, group.len) {
            let key = group_key(part, group);
            keys[n] = key;
            n = count_with(&mut seen, n, key);
        } else {
            n = 9;
        }
        at += group.next;
        remaining = group.left;
    }
    let set = KeySet { count: n, keys };
    close_set(set, at)
}

// The key set at a place. `allows_additional_info` tells whether its keys may have additional information: in draft 004 they may not.
pub fn read_keys(s: &[u8], at: usize, allowed: bool) -> KeysRead
    ensures value { result ≡ keys_answer (keys_read_as allowed (value_view (drop at s.now))) result.next }
    ensures rest { Accepting result.verdict (EndsAt s.now result.next (after_value (drop at s.now))) }
{
    match value_at(s, at) {
        Value::Array { start, count } => gather_keys(s, start, count, allowed),
        _ => refused_keys(Refusal::Type),
    }
}
