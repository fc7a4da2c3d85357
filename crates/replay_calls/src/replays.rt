// The replay.
ghost use Rattle.std.specs.Prelude.{◌≡◌, cond, length, replicate};
ghost use Rattle.node_image.specs.Node.{node_image};
ghost use Rattle.replay_calls.specs.Replays.{Replays};

use crate::replayed::put_replayed;
use image::{RANGE, clear};
use node::Node;
use node_image::put_node;

// A node where the trace made one; else zeros.
// Kept: the C interface has two structs, and `node_left` is all zero where the trace made no node.
fn store_node(made: bool, node: Node, out: &mut [u8])
    requires { length out.old ≡ 878 }
    ensures { out.new ≡ cond made (node_image.put node) (replicate 878 0) }
{
    if made {
        put_node(out, node);
    } else {
        clear(out);
    }
}

// Replays a recorded trace: the node that the calls of its records give, and what is told beside it.
pub fn replay(trace: &[u8], node: &mut [u8], out: &mut [u8]) -> u32
    ensures { Replays trace.now node.old out.old result node.new out.new }
{
    if node.len() != 878 {
        if out.len() == 251 {
            clear(out);
        }
        return RANGE;
    }
    if out.len() != 251 {
        clear(node);
        return RANGE;
    }
    let played = trace::walker::replay(trace);
    let made = played.node;
    let report = played.statistics;
    store_node(played.made, made, node);
    put_replayed(out, report, !played.complete, played.offset);
    0
}
