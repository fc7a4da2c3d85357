// How the answers of simulate are written (docs/TOOLS.md).
#![tactic(auto)]

mod answer;
mod delivery;

pub use answer::put_answer;
