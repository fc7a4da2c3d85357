// A node's join attempt: phase, clock and timing.
#![tactic(auto)]

pub mod attempt;
pub mod delivery;
pub mod poll;

ghost use Rattle.node_attempt.specs.Demand1.{AttemptDemand1};

pub use attempt::{Attempt, Phase};
pub use poll::{AttemptResult, Due};

// Demand 1 for the join attempt.
pub fn demand1()
    ensures { AttemptDemand1 }
{}
