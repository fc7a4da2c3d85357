// Calls of one ordinary node with the keys of a join answer, `n` of each kind. The clock goes on by a millisecond a call.
use crate::protocol::fold::keys_number;
use node::Node;
use node_parameters::octets::absent_octets;
use protocol_version::Version;

// A node that took a join answer and heard a frame under the key `id`, so that the answer's keys are active.
fn joined(dst: &mut [u8], answer: &[u8], id: u8) -> Node {
    let mut known = absent_octets();
    known.held = true;
    let made = Node::new(Version::Draft, 0, known);
    let started = made.node.start(dst, 1, 10000);
    let answered = started.node.join_answer(2, answer);
    let heard = answered.node.verified(1, id);
    heard.node
}

fn node_number(node: Node) -> u64 {
    keys_number(node.sets.active.set, 0) ^ keys_number(node.sets.pending.set, 0)
}

// The node after `n` calls, each of which is given its number.
fn after_calls<F: Fn(Node, u64) -> Node>(mut node: Node, n: u64, call: F) -> Node
    requires { F.IsAlwaysCallable call }
{
    for i in 0..n {
        node = call(node, i);
    }
    node
}

#[unsafe(no_mangle)]
pub extern "C" fn bench_update(
    dst: &mut [u8],
    answer: &[u8],
    update: &[u8],
    id: u8,
    n: u64,
) -> u64 {
    let node = joined(dst, answer, id);
    node_number(after_calls(node, n, |node, i| node.update(3 + i % 65536, update).node))
}

#[unsafe(no_mangle)]
pub extern "C" fn bench_poll(dst: &mut [u8], answer: &[u8], id: u8, n: u64) -> u64 {
    let node = joined(dst, answer, id);
    node_number(after_calls(node, n, |node, i| node.poll(3 + i % 65536).node))
}

#[unsafe(no_mangle)]
pub extern "C" fn bench_verified(dst: &mut [u8], answer: &[u8], id: u8, n: u64) -> u64 {
    let node = joined(dst, answer, id);
    node_number(after_calls(node, n, |node, _| node.verified(1, id).node))
}

// Kept: two loops for sending and receiving, since a closure that lends the node would store it with each call that is timed
#[unsafe(no_mangle)]
pub extern "C" fn bench_sending(dst: &mut [u8], answer: &[u8], id: u8, n: u64) -> u64 {
    let mut node = joined(dst, answer, id);
    let mut seen: u64 = 0;
    for i in 0..n {
        let r = node.sending_key(1);
        node = r.node;
        seen = seen ^ u64::from(r.answer.key.identifier) ^ i;
    }
    seen
}

#[unsafe(no_mangle)]
pub extern "C" fn bench_receiving(dst: &mut [u8], answer: &[u8], id: u8, n: u64) -> u64 {
    let node = joined(dst, answer, id);
    let mut seen: u64 = 0;
    for i in 0..n {
        let r = node.receiving_key(1, id);
        seen = seen ^ u64::from(r.key.identifier) ^ i;
    }
    seen
}
