// The calls of a node over images. A poll, a question, a frame's key and a report work on the lent bytes (capi_node); a start and a
// delivery load the node, call it, and store what that left. A call answers 0, or the refusal's number.
#![tactic(auto)]

mod attempt;
mod change;
mod delivery;
mod frames;
mod lease;
mod made;
mod store;

ghost use Rattle.node_calls.specs.Laws.{NodeRefusals};

pub use attempt::{node_poll, node_start};
pub use delivery::{node_answer, node_update};
pub use frames::{node_receive, node_send, node_verified};
pub use lease::node_holds;
pub use made::node_make;

// A refused call leaves node and destination byte for byte, and its results all zero.
pub fn refusals_keep_law()
    ensures { NodeRefusals }
{}
