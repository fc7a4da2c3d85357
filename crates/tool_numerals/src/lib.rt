// Numerals: decimal numbers and hexadecimal bytes, read in as many parts as they come in.
#![tactic(auto)]

pub mod decimal;
pub mod hex;
