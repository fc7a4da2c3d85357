// What a command of simulate does to one node.
#![tactic(auto)]

mod bench;
mod node_call;

pub use node_call::perform;
