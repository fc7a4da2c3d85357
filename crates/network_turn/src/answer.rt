// How a turn ends: one node is asked to send a frame, another receives it.
use node::Node;
use refusal::Refusal;

// How a turn ended: refused by the sender or the receiver, failed because their keys differ, or verified;
// then the receiver kept its active set or switched to the pending one.
#[derive(Clone, Copy)]
pub enum Answer {
    Failed,
    Kept,
    Switched,
}

// Both nodes as the turn left them.
// Kept: the nodes count beside a refusal too (`TurnDemand1` of network).
#[derive(Clone, Copy)]
pub struct TurnResult {
    pub sender: Node,
    pub receiver: Node,
    pub answer: Result<Answer, Refusal>,
}
