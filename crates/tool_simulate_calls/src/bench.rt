// The bench command `set`: puts a value into a node by hand, and judges nothing.
use link_key_counters::{CountedSet, none_counted};
use node::Node;
use node_attempt::Phase;
use tool_simulate::Edit;
use tool_simulate::command::byte;
use tool_text::word::Word;

// The node with the number, or the bytes, at the place that the edit names.
pub fn edited(mut node: Node, edit: Edit, number: u64, bytes: &[u8]) -> Node {
    let small = byte(number);
    match edit {
        Edit::Role => node.role = small,
        Edit::Count => node.attempt.count = small,
        Edit::Clock => node.attempt.clock = number,
        Edit::Sent => node.attempt.sent = number,
        Edit::Timeout => node.attempt.timeout = number,
        Edit::Received => node.address.received = number,
        _ => return with_parts(node, edit, number, bytes),
    }
    node
}

// An edit of the address or its lease, or else of a phase or a key set.
fn with_parts(node: Node, edit: Edit, number: u64, bytes: &[u8]) -> Node {
    match edit {
        Edit::Lease => with_lease(node, true, number),
        Edit::NoLease => with_lease(node, false, 0),
        Edit::Address => with_address(node, bytes),
        Edit::NoAddress => without_address(node),
        Edit::Idle => with_phase(node, Phase::Idle),
        Edit::Waiting => with_phase(node, Phase::Waiting),
        Edit::Joined => with_phase(node, Phase::Joined),
        Edit::GaveUp => with_phase(node, Phase::GaveUp),
        _ => with_sets(node, edit),
    }
}

fn with_lease(mut node: Node, leased: bool, lease: u64) -> Node {
    node.address.value.leased = leased;
    node.address.value.lease = lease;
    node
}

// The first two bytes; lease and time of receipt are those that it had, or that were set.
fn with_address(mut node: Node, bytes: &[u8]) -> Node {
    let word = Word::new().more(bytes);
    let [high, low, ..] = word.letters;
    let mut address = node.address;
    let mut value = address.value;
    value.bytes = [high, low];
    address.value = value;
    address.held = true;
    node.address = address;
    node
}

fn without_address(mut node: Node) -> Node {
    node.address.held = false;
    node
}

fn with_phase(mut node: Node, phase: Phase) -> Node {
    node.attempt.phase = phase;
    node
}

fn with_sets(mut node: Node, edit: Edit) -> Node {
    let mut sets = node.sets;
    let active = sets.active;
    let pending = sets.pending;
    let none = none_counted();
    match edit {
        Edit::ActiveOfPending => sets.active = pending,
        Edit::NoActive => sets.active = none,
        Edit::PendingOfActive => sets.pending = active,
        Edit::NoPending => sets.pending = none,
        _ => {}
    }
    node.sets = sets;
    node
}

// Sets the next counter of the node's key with the identifier, active or else pending; none where it has no such key.
pub fn set_counter(node: &mut Node, identifier: u8, counter: u32) -> Option<()> {
    let mut sets = node.sets;
    let active = sets.active;
    let pending = sets.pending;
    if active.set.has(identifier) {
        sets.active = counted(active, identifier, counter);
    } else if pending.set.has(identifier) {
        sets.pending = counted(pending, identifier, counter);
    } else {
        return None;
    }
    node.sets = sets;
    Some(())
}

// The set with this counter at its first key with the identifier.
fn counted(mut held: CountedSet, identifier: u8, counter: u32) -> CountedSet {
    let keys = held.set.keys;
    let mut counters = held.counters;
    let first = keys
        .iter()
        .zip(counters.iter_mut())
        .find(|(key, _)| key.identifier == identifier);
    if let Some((_, at)) = first {
        *at = counter;
    }
    held.counters = counters;
    held
}
