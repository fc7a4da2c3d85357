// What a call answers, and what it stores, by its verdict.
ghost use Rattle.std.specs.Prelude.{true, ◌≡◌, length, replicate};
ghost use Rattle.refusal.specs.Verdict.{verdict_number};
ghost use Rattle.image.specs.Effects.{on_accept};
ghost use Rattle.image.specs.Part.{is_image};
ghost use Rattle.node_image.specs.Answers.{dispositions_image};
ghost use Rattle.node_image.specs.Change.{Attempted};
ghost use Rattle.node_image.specs.Node.{node_image};

use crate::change::put_node_attempt;
use image::{clear, number_of};
use node::Node;
use node_image::{put_dispositions, put_node};
use node_parameters::Dispositions;
use refusal::Refusal;

// A node as a result.
pub(crate) fn store_result_node(verdict: Result<(), Refusal>, node: Node, out: &mut [u8]) -> u32
    requires { length out.old ≡ 878 }
    ensures number { result ≡ verdict_number verdict }
    ensures out { out.new ≡ on_accept verdict (replicate 878 0) (node_image.put node) }
{
    match verdict {
        Ok(()) => put_node(out, node),
        Err(_) => clear(out),
    }
    number_of(verdict)
}

// The node after a call.
pub(crate) fn store_node(verdict: Result<(), Refusal>, node: Node, image: &mut [u8]) -> u32
    requires { length image.old ≡ 878 }
    ensures number { result ≡ verdict_number verdict }
    ensures image { image.new ≡ on_accept verdict image.old (node_image.put node) }
{
    if verdict.is_ok() {
        put_node(image, node);
    }
    number_of(verdict)
}

// The node after a call that changes its join attempt alone.
// Kept: a number in each arm; tried `if verdict.is_ok()` before `number_of(verdict)`: the proof did not close.
pub(crate) fn store_attempt(verdict: Result<(), Refusal>, node: Node, image: &mut [u8]) -> u32
    requires image_value { is_image node_image image.old ≡ true }
    requires attempted { Attempted (node_image.get image.old) node }
    ensures number { result ≡ verdict_number verdict }
    ensures image { image.new ≡ on_accept verdict image.old (node_image.put node) }
{
    match verdict {
        Ok(()) => {
            put_node_attempt(image, node);
            0
        }
        Err(why) => why.number() as u32,
    }
}

// Reports as a result.
pub(crate) fn store_dispositions(
    verdict: Result<(), Refusal>,
    reports: Dispositions,
    out: &mut [u8],
) -> u32
    requires { length out.old ≡ 17 }
    ensures number { result ≡ verdict_number verdict }
    ensures out { out.new ≡ on_accept verdict (replicate 17 0) (dispositions_image.put reports) }
{
    match verdict {
        Ok(()) => put_dispositions(out, reports),
        Err(_) => clear(out),
    }
    number_of(verdict)
}
