// A key set with a frame counter for each of its keys.
#![tactic(auto)]

pub mod history;

ghost use Rattle.std.specs.Prelude.{◌≡◌, ℕ, ◌<◌, IfSome};
ghost use Rattle.link_key_counters.specs.Counters.{with_zero_counters, no_counted, first_serving, place_of};
ghost use Rattle.link_key_counters.specs.Counters.{take_counter, kept_counter, inherit_counters};
ghost use Rattle.link_key_counters.specs.CounterLaws.{CounterLaws};

use link_key::set::KeySet;
use link_key::set::key_set::no_keys;
use link_key::{Key, no_key};

#[derive(Clone, Copy)]
pub struct CountedSet {
    pub set: KeySet,
    // The next counter of the key at the same place of the set.
    // Kept: counters beside the set, not in its keys: sets arrive without counters, and the theorem KeptLaws sets `set` against `set`.
    pub counters: [u32; 8],
}

// What a frame is sent with, and the set after it. Where no key serves, the key is all zero, the counter 0, and the set as it was.
// Kept: the theorems `spent-from` and `spends` of CounterLaws speak of `found` and `key`, and `taken_counter_on` of all four fields.
#[derive(Clone, Copy)]
pub struct TakenCounter {
    pub found: bool,
    pub key: Key,
    pub counter: u32,
    pub set: CountedSet,
}

// A set whose counters are all 0.
pub fn with_zero_counters(set: KeySet) -> CountedSet
    ensures { result ≡ with_zero_counters set }
{
    CountedSet {
        set,
        counters: [0u32; 8],
    }
}

// No key set.
pub fn none_counted() -> CountedSet
    ensures { result ≡ no_counted }
{
    with_zero_counters(no_keys())
}

impl CountedSet {
    // The place of the first key that covers the frame type and is not used up.
    fn serving(self, frame_type: u8) -> Option<usize>
        ensures place { result ≡ place_of (first_serving frame_type self) }
        ensures few { IfSome result (λ (i : ℕ). i < 8) }
    {
        for (i, key) in self.set.as_slice().iter().enumerate() {
            let counter = self.counters[i];
            if counter != 4294967295 && key.covers(frame_type) {
                return Some(i);
            }
        }
        None
    }

    // The first key that covers the frame type and is not used up, its counter, and the set with that counter one higher.
    // The answer is built in one place, after the branch: built in each branch, the set would be copied.
    pub fn take_counter(self, frame_type: u8) -> TakenCounter
        ensures { result ≡ take_counter frame_type self }
    {
        let set = self.set;
        let mut counters = self.counters;
        let mut found = false;
        let mut key = no_key();
        let mut counter: u32 = 0;
        if let Some(i) = self.serving(frame_type) {
            found = true;
            key = set.keys[i];
            counter = counters[i];
            counters[i] = counter + 1;
        }
        TakenCounter {
            set: CountedSet { set, counters },
            found,
            key,
            counter,
        }
    }

    // The counter of the key with this one's identifier and value; 0 where there is none.
    fn kept_counter(self, key: Key) -> u32
        ensures { result ≡ kept_counter self key }
    {
        for (i, held) in self.set.as_slice().iter().enumerate() {
            if held.same_secret(key) {
                return self.counters[i];
            }
        }
        0
    }

    // A set that replaces this one at once: a key keeps the counter that it has here, by its identifier and value.
    pub fn inherit_counters(self, set: KeySet) -> CountedSet
        ensures { result ≡ inherit_counters self set }
    {
        let mut counters = [0u32; 8];
        for (i, key) in set.as_slice().iter().enumerate() {
            counters[i] = self.kept_counter(*key);
        }
        CountedSet { set, counters }
    }
}

// What the layers above may rely on of counted sets.
pub fn laws()
    ensures { CounterLaws }
{}
