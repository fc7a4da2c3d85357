// What each record's call did.
ghost use Rattle.std.specs.Prelude.{◌≡◌};
ghost use Rattle.trace.specs.Trace.{new_node, start, join_answer, update, verified, poll};
ghost use Rattle.trace.specs.Calls.{done_delivered, call_of};

use node::{DeliveryResult, Node};
use node_key_sets::frames::has_switched;
use node_parameters::HeldOctets;
use protocol_version::Version;
use refusal::{Refusal, verdict_of};

// The verdict of a record's call, whether it switched, and the node as the call left it.
// Kept: `call_of` and `replay_exact_law` have the node beside a refusal too, since a refused call leaves it as it was.
#[derive(Clone, Copy)]
pub struct CallResult {
    pub verdict: Result<(), Refusal>,
    pub switched: bool,
    pub node: Node,
}

pub(crate) fn new_node(node: Node, role: u8, network: HeldOctets) -> CallResult
    ensures { result ≡ call_of (new_node role network) node }
{
    let made = Node::new(Version::Draft, role, network);
    let verdict = made.verdict;
    let fresh = made.node;
    CallResult {
        verdict,
        switched: false,
        node: fresh,
    }
}

// The request is written to 32 bytes that are lent anew.
pub(crate) fn start(node: Node, time: u64, timeout: u64) -> CallResult
    ensures { result ≡ call_of (start time timeout) node }
{
    let mut room = [0u8; 32];
    let started = node.start(&mut room, time, timeout);
    let verdict = started.verdict;
    let waiting = started.node;
    CallResult {
        verdict,
        switched: false,
        node: waiting,
    }
}

fn delivered(delivered: DeliveryResult) -> CallResult
    ensures { result ≡ done_delivered delivered }
{
    let verdict = delivered.verdict;
    let node = delivered.node;
    CallResult {
        verdict,
        switched: false,
        node,
    }
}

pub(crate) fn join_answer(node: Node, time: u64, payload: &[u8]) -> CallResult
    ensures { result ≡ call_of (join_answer time payload.now) node }
{
    delivered(node.join_answer(time, payload))
}

pub(crate) fn update(node: Node, time: u64, payload: &[u8]) -> CallResult
    ensures { result ≡ call_of (update time payload.now) node }
{
    delivered(node.update(time, payload))
}

pub(crate) fn verified(node: Node, frame_type: u8, identifier: u8) -> CallResult
    ensures { result ≡ call_of (verified frame_type identifier) node }
{
    let heard = node.verified(frame_type, identifier);
    let change = heard.change;
    let reported = heard.node;
    CallResult {
        verdict: verdict_of(change),
        switched: has_switched(change),
        node: reported,
    }
}

pub(crate) fn poll(node: Node, time: u64) -> CallResult
    ensures { result ≡ call_of (poll time) node }
{
    let polled = node.poll(time);
    let due = polled.due;
    let after = polled.node;
    CallResult {
        verdict: verdict_of(due),
        switched: false,
        node: after,
    }
}
