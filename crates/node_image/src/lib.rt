// The image of a node, and of what its calls answer with: reports on a configuration's parameters, and a frame's key.
#![tactic(auto)]

mod answers;
mod attempt;
mod held;
mod state;
mod version;

ghost use Rattle.node_image.specs.Change.{NodeChanges};
ghost use Rattle.node_image.specs.Laws.{NodeImages};

pub use answers::{put_dispositions, put_frame_key};
pub use attempt::{attempt_at, put_attempt};
pub use held::{held_address_at, held_octets_at};
pub use state::{is_node, node_in, put_node};
pub use version::version_at;

// What was stored is loaded as it was, and there is one image for each value.
pub fn laws()
    ensures { NodeImages }
{
    key_image::laws();
    object_image::laws();
}

// What a start, a poll and a send may change of a node.
pub fn partial_store_law()
    ensures { NodeChanges }
{}
