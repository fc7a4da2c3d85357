// The join attempt.
ghost use Rattle.std.specs.Prelude.{true, ◌≡◌};
ghost use Rattle.image.specs.Effects.{on_accept};
ghost use Rattle.image.specs.Part.{is_image};
ghost use Rattle.node.specs.Node.{attempting};
ghost use Rattle.node.specs.Timing.{poll};
ghost use Rattle.node_attempt.specs.Poll.{due_verdict};
ghost use Rattle.node_image.specs.Node.{node_image};
ghost use Rattle.capi_node.specs.Calls.{node_in, due_in};

use capi_judge::is_valid_node;
use node_attempt::{Attempt, Due};
use node_image::{attempt_at, put_attempt};
use refusal::{Refusal, verdict_of};

// Stores the join attempt after a call that was accepted.
fn store_attempt(verdict: Result<(), Refusal>, attempt: Attempt, node: &mut [u8])
    requires { is_image node_image node.old ≡ true }
    ensures { node.new
        ≡ on_accept verdict node.old (node_image.put (attempting (node_in node.old) attempt)) }
{
    node_image::laws();
    match verdict {
        Ok(()) => put_attempt(&mut node[3..], attempt),
        Err(_) => {}
    }
}

// What is due in the join attempt of the node in an image. RANGE: no image, the node; CLOCK, PHASE.
pub fn poll_in(node: &mut [u8], time: u64) -> Result<Due, Refusal>
    ensures due { result ≡ due_in node.old time }
    ensures node { node.new
        ≡ on_accept (due_verdict result) node.old (node_image.put (poll (node_in node.old) time).node) }
{
    if !is_valid_node(node) {
        return Err(Refusal::Range);
    }
    let polled = attempt_at(node, 3).poll(time);
    store_attempt(verdict_of(polled.due), polled.attempt, node);
    polled.due
}
