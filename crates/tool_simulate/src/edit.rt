// The bench command `set I FIELD VALUE`: what it puts into a node.
use tool_text::first;
use tool_text::word::Word;

#[derive(Clone, Copy)]
pub enum Edit {
    // a number
    Role,
    Count,
    Clock,
    Sent,
    Timeout,
    Received,
    Lease,
    NoLease,
    // two bytes
    Address,
    NoAddress,
    // a key identifier and its next counter
    Counter,
    // a phase
    Idle,
    Waiting,
    Joined,
    GaveUp,
    // a copy of the other set
    ActiveOfPending,
    NoActive,
    PendingOfActive,
    NoPending,
}

// What the field's name and the value ask for; none where there is no such field, or no such value of it. Numbers and bytes are judged
// later.
pub fn edit_of(field: Word, value: Word) -> Option<Edit> {
    let letters = field.letters;
    match first(&letters, field.len) {
        b"phase" => phase_of(value),
        b"address" if value.is(b"none") => Some(Edit::NoAddress),
        b"address" => Some(Edit::Address),
        b"lease" if value.is(b"none") => Some(Edit::NoLease),
        b"lease" => Some(Edit::Lease),
        b"active" if value.is(b"none") => Some(Edit::NoActive),
        b"active" if value.is(b"pending") => Some(Edit::ActiveOfPending),
        b"pending" if value.is(b"none") => Some(Edit::NoPending),
        b"pending" if value.is(b"active") => Some(Edit::PendingOfActive),
        b"role" => Some(Edit::Role),
        b"count" => Some(Edit::Count),
        b"clock" => Some(Edit::Clock),
        b"sent" => Some(Edit::Sent),
        b"timeout" => Some(Edit::Timeout),
        b"received" => Some(Edit::Received),
        b"counter" => Some(Edit::Counter),
        _ => None,
    }
}

fn phase_of(value: Word) -> Option<Edit> {
    let letters = value.letters;
    match first(&letters, value.len) {
        b"idle" => Some(Edit::Idle),
        b"waiting" => Some(Edit::Waiting),
        b"joined" => Some(Edit::Joined),
        b"gave-up" => Some(Edit::GaveUp),
        _ => None,
    }
}
