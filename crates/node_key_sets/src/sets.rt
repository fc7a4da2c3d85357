// The two sets: which may stand together, and where a new one goes.
ghost use Rattle.std.specs.Prelude.{not, ◌&&◌, ◌||◌, ◌≡◌};
ghost use Rattle.link_key.specs.set.KeySet.{keys_of, additional_info_allowed, shares};
ghost use Rattle.node_key_sets.specs.Sets.{active_in, pending_in, is_none, no_sets, none_or_valid, valid_as, install_decision};

use link_key::set::KeySet;
use link_key_counters::{CountedSet, none_counted};
use refusal::Refusal;

// A set whose count is 0 stands for no set.
// Kept: C's image of a node has both sets in place, and `none_or_valid` tells the count 0 from a set.
#[derive(Clone, Copy)]
pub struct KeySets {
    pub active: CountedSet,
    pub pending: CountedSet,
}

// The sets after a new one came; beside a refusal they are as they were. The definitions' answer: the code gives the place alone, and the
// node changes its sets where they stand.
// Kept: `install-refused` of the theorem KeySetsDemand1 speaks of the sets beside a refusal.
#[derive(Clone, Copy)]
pub struct InstallResult {
    pub verdict: Result<(), Refusal>,
    pub sets: KeySets,
}

// Where a new set goes: it is the active one at once, it is the one that is active already, or it waits.
#[derive(Clone, Copy)]
pub enum InstallSlot {
    Active,
    Same,
    Pending,
}

pub fn no_sets() -> KeySets
    ensures { result ≡ no_sets }
{
    let none = none_counted();
    KeySets {
        active: none,
        pending: none,
    }
}

// A set within the limits of KEYS, or none; its keys may have additional information, or may not.
fn none_or_valid(set: KeySet, allowed: bool) -> bool
    ensures { result ≡ (none_or_valid set && additional_info_allowed allowed (keys_of set)) }
{
    set.count == 0 || set.valid_as(allowed)
}

impl KeySets {
    // Whether the two may stand beside each other: no identifier in both, none pending at a border node.
    fn apart(self, border: bool) -> bool
        ensures { result ≡ (not (shares (active_in self) (pending_in self)) && (not border || is_none self.pending.set)) }
    {
        link_key::set::laws();
        self.pending.set.count == 0 || !border && !self.active.set.shares(self.pending.set)
    }

    // Whether a node may hold the two: each in range, no identifier in both, none pending at a border node, additional information only
    // where keys may have it.
    pub fn valid(self, border: bool, allowed: bool) -> bool
        ensures { result ≡ valid_as allowed border self }
    {
        none_or_valid(self.active.set, allowed)
            && none_or_valid(self.pending.set, allowed)
            && self.apart(border)
    }

    // Where a new set goes: a border node's is active at once; an ordinary node's is the active one, or waits as the pending one.
    // RANGE: the new set; CLASH. The two sets themselves are judged by the node's call that this is a part of.
    #[tactic(auto, unfolding(crate::specs::Sets::install_decision))]
    pub fn decide_install(self, border: bool, set: KeySet) -> Result<InstallSlot, Refusal>
        ensures { result ≡ install_decision border self set }
    {
        if !set.valid() {
            return Err(Refusal::Range);
        }
        if border {
            return Ok(InstallSlot::Active);
        }
        if set.same_keys(self.active.set) {
            return Ok(InstallSlot::Same);
        }
        if set.shares(self.active.set) {
            return Err(Refusal::Clash);
        }
        Ok(InstallSlot::Pending)
    }
}
