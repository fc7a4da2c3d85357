#![tactic(auto)]

pub mod lists;
pub mod logic;
