// Keys looked for by their identifier.
ghost use Rattle.std.specs.Prelude.{◌≡◌, ◌+◌, ◌≤◌, length, drop};
ghost use Rattle.image.specs.Part.{gets};
ghost use Rattle.key_image.specs.Key.{key_part, key_set_part};
ghost use Rattle.link_key.specs.Key.{found_key};
ghost use Rattle.link_key.specs.set.KeySet.{keys_of, find_key};
ghost use Rattle.node_image.specs.Node.{sets_part};
ghost use Rattle.node_key_sets.specs.Frames.{held_key, if_found_covers, receiving_key};

use key_image::key_at;
use link_key::Key;
use node_key_sets::{KeyAnswer, without_key};
use refusal::Refusal;

// How many keys the set at an offset has: its count, and 8 where the count is over 8.
pub(crate) fn key_count_at(s: &[u8], at: usize) -> usize
    requires { at + 217 ≤ length s.now }
    ensures few { result ≤ 8 }
    ensures keys { gets key_part result (drop (at + 1) s.now) ≡ keys_of (key_set_part.get (drop at s.now)) }
{
    usize::from(s[at]).min(8)
}

// The key with the identifier in the set at an offset.
pub(crate) fn find_at(s: &[u8], at: usize, identifier: u8) -> Option<Key>
    requires { at + 217 ≤ length s.now }
    ensures { result ≡ found_key (find_key identifier (keys_of (key_set_part.get (drop at s.now)))) }
{
    for i in 0..key_count_at(s, at) {
        let k = at + 1 + 27 * i;
        if s[k] == identifier {
            return Some(key_at(s, k));
        }
    }
    None
}

// The key with the identifier, active or else pending.
fn held_key_in(s: &[u8], identifier: u8) -> Option<Key>
    requires { length s.now ≡ 878 }
    ensures { result ≡ found_key (held_key (sets_part.get (drop 29 s.now)) identifier) }
{
    let active = find_at(s, 29, identifier);
    if active.is_some() {
        return active;
    }
    find_at(s, 278, identifier)
}

// The answer to a frame of this type, by the key that was found. SILENT.
fn covering(held: Option<Key>, frame_type: u8) -> KeyAnswer
    ensures { result ≡ if_found_covers frame_type held }
{
    match held {
        Some(key) if key.covers(frame_type) => KeyAnswer {
            verdict: Ok(()),
            key,
        },
        _ => without_key(Refusal::Silent),
    }
}

// The key to receive a frame of this type and key identifier with. RANGE: the type, identifier 0; SILENT.
pub(crate) fn receiving_key_in(s: &[u8], frame_type: u8, identifier: u8) -> KeyAnswer
    requires { length s.now ≡ 878 }
    ensures { result ≡ receiving_key (sets_part.get (drop 29 s.now)) frame_type identifier }
{
    if 1 < frame_type {
        return without_key(Refusal::Range);
    }
    if identifier == 0 {
        return without_key(Refusal::Range);
    }
    covering(held_key_in(s, identifier), frame_type)
}
