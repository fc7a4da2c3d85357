// Lines of words for the desk tools: a command, up to four words that are each a number or bytes, and HEX from one word on.
// A line is read in as many parts as it comes in and may have any length: of each word as many bytes are kept as its place holds.
#![tactic(auto)]

pub mod argument;
pub mod line;
pub mod shape;
pub mod words;
