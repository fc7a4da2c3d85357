#![tactic(auto)]

pub mod counters;
pub mod merge;
