// The nodes of a simulation, by number.
use network_turn::{Answer, turn};
use node::Node;
use node_key_sets::Change;
use tool_simulate::command::byte;
use tool_simulate::{Command, Verb};
use tool_simulate_calls::perform;
use tool_simulate_reply::{Reply, ReplyError};
use tool_text::line_error::LineError;

// The nodes 0 to 15; none where it is not made.
pub type Nodes = [Option<Node>; 16];

// Carries the command out, or says why it is not carried out. A join request that is sent is written over the first `room` bytes of the
// payload.
pub fn execute(
    nodes: &mut Nodes,
    command: Command,
    room: usize,
    payload: &mut tool_notation::Payload,
) -> Result<Reply, ReplyError> {
    let verb = command.verb;
    match verb {
        Verb::Room => Ok(Reply::Lent(command.first as usize)),
        Verb::Turn => take_turn(nodes, command),
        _ => match nodes.get_mut(command.first as usize) {
            Some(place) => perform(place, command, room, payload),
            None => Err(ReplyError::Wrong(LineError::Node)),
        },
    }
}

// The command `turn I J TYPE`, between two different nodes.
fn take_turn(nodes: &mut Nodes, command: Command) -> Result<Reply, ReplyError> {
    let sender = load(nodes, command.first)?;
    let receiver = load(nodes, command.second)?;
    if command.first == command.second {
        return Err(ReplyError::Wrong(LineError::Node));
    }
    let turned = turn(sender, receiver, byte(command.third));
    store(nodes, command.first, turned.sender);
    store(nodes, command.second, turned.receiver);
    let answer = turned.answer;
    Ok(match answer? {
        Answer::Failed => Reply::Failed,
        Answer::Kept => Reply::Verified(Change::Kept),
        Answer::Switched => Reply::Verified(Change::Switched),
    })
}

// The node with this number, if it is made.
fn load(nodes: &Nodes, number: u64) -> Result<Node, LineError> {
    match nodes.get(number as usize) {
        Some(Some(node)) => Ok(*node),
        _ => Err(LineError::Node),
    }
}

fn store(nodes: &mut Nodes, number: u64, node: Node) {
    if let Some(place) = nodes.get_mut(number as usize) {
        *place = Some(node);
    }
}
