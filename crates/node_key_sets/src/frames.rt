// Keys for frames: which key to send with, which to receive with, and the radio's report of a verified frame.
ghost use Rattle.std.specs.Prelude.{◌≡◌, cond, not, ◌&&◌, eqb};
ghost use Rattle.refusal.specs.declared.Refusal.TheVariants as refusal;
ghost use Rattle.link_key.specs.Key.{found_key};
ghost use Rattle.link_key.specs.usage.Usage.{known_type};
ghost use Rattle.node_key_sets.specs.Frames.{with_key, without_key, unsent, sending, held_key, if_found_covers, receiving_key};
ghost use Rattle.node_key_sets.specs.Frames.{switched, effect, verified_in, has_switched};

use crate::sets::KeySets;
use link_key::{Key, no_key};
use link_key_counters::none_counted;
use refusal::Refusal;

// Beside a refusal stands the key that is all zero.
// Kept: `receive-refused` of the theorem KeySetsDemand1 speaks of the key beside a refusal.
#[derive(Clone, Copy)]
pub struct KeyAnswer {
    pub verdict: Result<(), Refusal>,
    pub key: Key,
}

// What a frame is sent with: the key and its counter, and the sets with that counter one higher.
// Kept: `send-refused` of the theorem KeySetsDemand1 speaks of key, counter and sets beside a refusal.
#[derive(Clone, Copy)]
pub struct SendKeyResult {
    pub answer: KeyAnswer,
    pub counter: u32,
    pub sets: KeySets,
}

// What a verified frame did to the key sets.
#[derive(Clone, Copy)]
pub enum Change {
    Switched,
    Kept,
}

// Whether a report made the pending set active.
pub fn has_switched(change: Result<Change, Refusal>) -> bool
    ensures { result ≡ has_switched change }
{
    matches!(change, Ok(Change::Switched))
}

pub fn without_key(why: Refusal) -> KeyAnswer
    ensures { result ≡ without_key why }
{
    KeyAnswer {
        verdict: Err(why),
        key: no_key(),
    }
}

// The answer to a frame of this type and key identifier, from what was found under the identifier. RANGE: the type, identifier 0; SILENT.
fn received(held: Option<Key>, frame_type: u8, identifier: u8) -> KeyAnswer
    ensures { result ≡ cond (known_type frame_type && not (eqb identifier 0)) (if_found_covers frame_type held)
        (without_key refusal.Range) }
{
    if 1 < frame_type || identifier == 0 {
        return without_key(Refusal::Range);
    }
    match held {
        Some(key) if key.covers(frame_type) => KeyAnswer {
            verdict: Ok(()),
            key,
        },
        _ => without_key(Refusal::Silent),
    }
}

// The answer to a frame that is to be sent, from the key that was looked for. SILENT.
fn chosen(found: bool, key: Key) -> KeyAnswer
    ensures { result ≡ cond found (with_key key) (without_key refusal.Silent) }
{
    if found {
        return KeyAnswer {
            verdict: Ok(()),
            key,
        };
    }
    without_key(Refusal::Silent)
}

// The three calls for frames are parts of a node's calls, which judge the node with its key sets first: no set is judged twice.
// They are total all the same: of sets outside their limits they answer the first key that is found.
impl KeySets {
    fn unsent(self, why: Refusal) -> SendKeyResult
        ensures { result ≡ unsent why self }
    {
        SendKeyResult {
            answer: without_key(why),
            counter: 0,
            sets: self,
        }
    }

    // The key to send a frame of this type with: the first active one that covers it and is not used up. RANGE: the type; SILENT.
    // Found or not, the answer is built in one place: where none is found, `take_counter` gives the set as it was.
    pub fn sending_key(self, frame_type: u8) -> SendKeyResult
        ensures { result ≡ sending self frame_type }
    {
        if 1 < frame_type {
            return self.unsent(Refusal::Range);
        }
        let spent = self.active.take_counter(frame_type);
        let answer = chosen(spent.found, spent.key);
        SendKeyResult {
            answer,
            counter: spent.counter,
            sets: KeySets {
                active: spent.set,
                pending: self.pending,
            },
        }
    }

    // The key with the identifier, active or else pending.
    fn held_key(self, identifier: u8) -> Option<Key>
        ensures { result ≡ found_key (held_key self identifier) }
    {
        let active = self.active.set.find_key(identifier);
        if active.is_some() {
            return active;
        }
        self.pending.set.find_key(identifier)
    }

    // The key to receive a frame of this type and key identifier with. RANGE: the type, identifier 0; SILENT.
    pub fn receiving_key(self, frame_type: u8, identifier: u8) -> KeyAnswer
        ensures { result ≡ receiving_key self frame_type identifier }
    {
        received(self.held_key(identifier), frame_type, identifier)
    }

    // What a frame of this type and key identifier does to the sets, which the radio reports verified. Refused as `receiving_key` is.
    // Only the change is answered: the sets are other ones after a switch alone, which `switched` makes.
    pub fn verified(self, frame_type: u8, identifier: u8) -> Result<Change, Refusal>
        ensures { verified_in self frame_type identifier ≡ effect result (cond (has_switched result) (switched self) self) }
    {
        received(self.held_key(identifier), frame_type, identifier).verdict?;
        if self.active.set.has(identifier) {
            Ok(Change::Kept)
        } else {
            Ok(Change::Switched)
        }
    }

    // The pending set becomes active, and the old one is gone.
    pub fn switched(self) -> KeySets
        ensures { result ≡ switched self }
    {
        KeySets {
            active: self.pending,
            pending: none_counted(),
        }
    }
}
