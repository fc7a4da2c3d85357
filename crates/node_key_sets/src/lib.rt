// A node's two key sets: the active one, which it sends with, and the pending one, which waits until a frame under it is verified.
#![tactic(auto)]

pub mod frames;
pub mod sets;

ghost use Rattle.node_key_sets.specs.Demand1.{KeySetsDemand1};
ghost use Rattle.node_key_sets.specs.Sets.{InstallDecided};

pub use frames::{Change, KeyAnswer, SendKeyResult, has_switched, without_key};
pub use sets::{InstallResult, InstallSlot, KeySets, no_sets};

// Installing a set does what `KeySets::decide_install` decides.
pub fn install_law()
    ensures { InstallDecided }
{}

// Demand 1 for the two key sets.
pub fn demand1()
    ensures { KeySetsDemand1 }
{}
