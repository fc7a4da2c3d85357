// A set of link-layer keys: the first `count` keys of eight places, in the order of the payload that held them.
ghost use Rattle.std.specs.Prelude.{◌&&◌, ◌||◌, ◌≡◌, ◌≤◌, length};
ghost use Rattle.link_key.specs.set.KeySet.{keys_of, no_keys, has, each_once, valid_set};
ghost use Rattle.link_key.specs.set.KeySet.{no_additional_infos, additional_info_allowed, same_keys, shares, find_key};
ghost use Rattle.link_key.specs.Key.{has_no_additional_info, found_key};

use crate::set::seen::{join, none_seen};
use crate::{Key, no_key};

// Kept: no heap; and a count over 8 is a value: `len`'s clause `few`, `valid_set` and the edit set_of_9_accepted speak of it.
#[derive(Clone, Copy)]
pub struct KeySet {
    // How many keys the set has; 0 is no set.
    pub count: usize,
    // The places after the first `count` are never looked at.
    pub keys: [Key; 8],
}

// No key set.
pub fn no_keys() -> KeySet
    ensures { result ≡ no_keys }
{
    let none = no_key();
    KeySet {
        count: 0,
        keys: [none; 8],
    }
}

// Whether one of the keys has the identifier.
fn any_named(keys: &[Key], identifier: u8) -> bool
    ensures { result ≡ has identifier keys.now }
{
    keys.iter().any(|key| key.identifier == identifier)
}

// Whether a key is without additional information, or may have it.
fn additional_info_allowed(allowed: bool, key: Key) -> bool
    ensures { result ≡ (allowed || has_no_additional_info key) }
{
    allowed || key.has_no_additional_info()
}

impl KeySet {
    // How many keys there are: the count, and 8 where the count is over 8.
    pub fn len(self) -> usize
        ensures exact { result ≡ length (keys_of self) }
        ensures few { result ≤ 8 }
    {
        self.count.min(8)
    }

    // The keys of the set.
    pub fn as_slice(&self) -> &[Key]
        ensures exact { result.now ≡ keys_of self.now }
        ensures few { length result.now ≤ 8 }
    {
        &self.keys[..self.len()]
    }

    // Whether the set is within document 01's limits (KEYS): 1 to 8 keys, each in its limits, no identifier twice.
    pub fn valid(self) -> bool
        ensures { result ≡ valid_set self }
    {
        self.valid_as(true)
    }

    // The same of a form whose keys may have additional information, or may not.
    pub fn valid_as(self, allowed: bool) -> bool
        ensures { result ≡ (valid_set self && additional_info_allowed allowed (keys_of self)) }
    {
        if self.count == 0 || 8 < self.count {
            return false;
        }
        self.keys_valid(allowed)
    }

    // Whether every key is in its limits, and no identifier comes twice: each key is looked at once.
    fn keys_valid(self, allowed: bool) -> bool
        ensures { result ≡ (each_once (keys_of self) && additional_info_allowed allowed (keys_of self)) }
    {
        let mut seen = none_seen();
        for key in self.as_slice() {
            if !additional_info_allowed(allowed, *key) {
                return false;
            }
            if !join(&mut seen, *key) {
                return false;
            }
        }
        true
    }

    // Whether no key of the set has additional information, as draft 004 wants it.
    pub fn has_no_additional_info(self) -> bool
        ensures { result ≡ no_additional_infos (keys_of self) }
    {
        self.as_slice()
            .iter()
            .all(|key| key.has_no_additional_info())
    }

    // Whether a key of the set has the identifier.
    pub fn has(self, identifier: u8) -> bool
        ensures { result ≡ has identifier (keys_of self) }
    {
        any_named(self.as_slice(), identifier)
    }

    // Whether two sets have the same keys in the same order.
    #[tactic(auto, using(crate::proofs::Equal::lists))]
    pub fn same_keys(self, other: KeySet) -> bool
        ensures { result ≡ same_keys (keys_of self) (keys_of other) }
    {
        self.as_slice() == other.as_slice()
    }

    // Whether some identifier is in both sets.
    pub fn shares(self, other: KeySet) -> bool
        ensures { result ≡ shares (keys_of self) (keys_of other) }
    {
        let theirs = other.as_slice();
        self.as_slice()
            .iter()
            .any(|key| any_named(theirs, key.identifier))
    }

    // The key with the identifier: the first one, where the set is outside its limits.
    pub fn find_key(self, identifier: u8) -> Option<Key>
        ensures { result ≡ found_key (find_key identifier (keys_of self)) }
    {
        for key in self.as_slice() {
            if key.identifier == identifier {
                return Some(*key);
            }
        }
        None
    }
}
