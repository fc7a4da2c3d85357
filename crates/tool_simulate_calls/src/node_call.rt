// What a command does to one node, and what it is answered.
use crate::bench::{edited, set_counter};
use cojp::Octets;
use node::{DeliveryResult, Node};
use node_parameters::HeldOctets;
use node_parameters::octets::absent_octets;
use protocol_version::Version;
use refusal::Refusal;
use tool_simulate::command::{byte, counter};
use tool_simulate::{Command, Edit, Verb};
use tool_simulate_reply::{Reply, ReplyError};
use tool_text::line_error::LineError;

// The bytes as a network identifier. Over 16 of them count as 17, which the library refuses.
fn identifier(payload: &[u8]) -> HeldOctets {
    let len = payload.len().min(17);
    let bytes = cojp::copied(payload, 0, len);
    HeldOctets {
        held: true,
        value: Octets { len, bytes },
    }
}

// Carries out a command on the node that it names, or says why it is not carried out. A join request that is sent is written over the first
// `room` bytes of the payload.
pub fn perform(
    place: &mut Option<Node>,
    command: Command,
    room: usize,
    payload: &mut tool_notation::Payload,
) -> Result<Reply, ReplyError> {
    let verb = command.verb;
    let bytes = command.hex.map(|len| tool_text::first(payload, len));
    if let Verb::Make(version) = verb {
        *place = Some(make(version, command, bytes)?);
        return Ok(Reply::Made);
    }
    let Some(node) = place else {
        return Err(ReplyError::Wrong(LineError::Node));
    };
    if let Verb::Start = verb {
        return start(node, command, room, payload);
    }
    call(node, command, bytes.unwrap_or(b""))
}

fn start(
    node: &mut Node,
    command: Command,
    room: usize,
    payload: &mut [u8],
) -> Result<Reply, ReplyError> {
    let room = room.min(payload.len());
    let started = node.start(&mut payload[..room], command.second, command.third);
    *node = started.node;
    let verdict = started.verdict;
    verdict?;
    Ok(Reply::Sent(started.length))
}

// Any command but `start` on a node that is made; a question leaves the node.
fn call(node: &mut Node, command: Command, payload: &[u8]) -> Result<Reply, ReplyError> {
    let verb = command.verb;
    match verb {
        Verb::Set(edit) => set(node, edit, command, payload),
        Verb::Answer => delivered(node, node.join_answer(command.second, payload)),
        Verb::Update => delivered(node, node.update(command.second, payload)),
        Verb::Poll => poll(node, command.second),
        Verb::Verified => verified(node, command),
        Verb::Send => sending(node, command),
        Verb::Receive => receiving(node, command),
        Verb::Holds => Ok(Reply::Held(node.address_holds(command.second)?)),
        _ => Ok(Reply::Shown(*node)),
    }
}

// The commands `node I ROLE NETWORK` and `new-node I ROLE NETWORK`.
fn make(version: Version, command: Command, network: Option<&[u8]>) -> Result<Node, Refusal> {
    let network = network.map_or(absent_octets(), identifier);
    let made = Node::new(version, byte(command.second), network);
    let verdict = made.verdict;
    verdict?;
    Ok(made.node)
}

fn delivered(node: &mut Node, delivered: DeliveryResult) -> Result<Reply, ReplyError> {
    *node = delivered.node;
    let verdict = delivered.verdict;
    verdict?;
    Ok(Reply::Delivered(delivered.dispositions, delivered.node))
}

fn poll(node: &mut Node, time: u64) -> Result<Reply, ReplyError> {
    let polled = node.poll(time);
    *node = polled.node;
    let due = polled.due;
    Ok(Reply::Polled(due?))
}

fn verified(node: &mut Node, command: Command) -> Result<Reply, ReplyError> {
    let heard = node.verified(byte(command.second), byte(command.third));
    *node = heard.node;
    let change = heard.change;
    Ok(Reply::Verified(change?))
}

fn sending(node: &mut Node, command: Command) -> Result<Reply, ReplyError> {
    let sent = node.sending_key(byte(command.second));
    *node = sent.node;
    let answer = sent.answer;
    let verdict = answer.verdict;
    verdict?;
    Ok(Reply::Sending(answer.key, sent.counter))
}

fn receiving(node: &Node, command: Command) -> Result<Reply, ReplyError> {
    let answer = node.receiving_key(byte(command.second), byte(command.third));
    let verdict = answer.verdict;
    verdict?;
    Ok(Reply::Receiving(answer.key))
}

// The bench command `set I FIELD VALUE`; the error is that the node has no key with the identifier.
fn set(node: &mut Node, edit: Edit, command: Command, payload: &[u8]) -> Result<Reply, ReplyError> {
    if let Edit::Counter = edit {
        set_counter(node, byte(command.third), counter(command.fourth)).ok_or(LineError::Key)?;
    } else {
        *node = edited(*node, edit, command.third, payload);
    }
    Ok(Reply::Set)
}
