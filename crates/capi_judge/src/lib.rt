// Whether the node in a lent image may be handed in, judged where it stands: only the join attempt, the short address, byte strings and
// error reports are copied. One table of flags serves both key sets.
#![tactic(auto)]

mod flags;
mod list;
mod sets;
mod state;

pub use state::is_valid_node;
