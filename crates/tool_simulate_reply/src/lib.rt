// What a command of simulate is answered, as a value, or why it was not carried out.
#![tactic(auto)]

use link_key::Key;
use node::{LeaseStatus, Node};
use node_attempt::Due;
use node_key_sets::Change;
use node_parameters::Dispositions;
use refusal::Refusal;
use tool_text::line_error::LineError;

// Why a command was not carried out.
#[derive(Clone, Copy)]
pub enum ReplyError {
    Wrong(LineError),
    Refused(Refusal),
}

impl From<LineError> for ReplyError {
    fn from(error: LineError) -> ReplyError {
        ReplyError::Wrong(error)
    }
}

impl From<Refusal> for ReplyError {
    fn from(refusal: Refusal) -> ReplyError {
        ReplyError::Refused(refusal)
    }
}

#[derive(Clone, Copy)]
pub enum Reply {
    Made,
    Set,
    // a start may write so many bytes
    Lent(usize),
    // a join request of so many bytes
    Sent(usize),
    Polled(Due),
    // what was made of a configuration, and the node then
    Delivered(Dispositions, Node),
    Held(LeaseStatus),
    Verified(Change),
    // a turn whose frame was not verified
    Failed,
    // the key and the counter that a frame is sent with
    Sending(Key, u32),
    // the key that a frame is received with
    Receiving(Key),
    Shown(Node),
}
