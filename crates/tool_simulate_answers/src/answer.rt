// How answers are written.
use crate::delivery::put_delivery;
use link_key::Key;
use node::LeaseStatus;
use node_attempt::Due;
use node_key_sets::Change;
use tool_node::put_node;
use tool_notation::{put_key, put_refusal};
use tool_simulate_reply::{Reply, ReplyError};
use tool_text::line_error::put_line_error;
use tool_text::output::{ByteString, Output};

// Answers the line; a join request is in the payload.
pub fn put_answer(out: &mut Output, reply: Result<Reply, ReplyError>, payload: &[u8]) {
    match reply {
        Ok(reply) => put_reply(out, reply, payload),
        Err(ReplyError::Wrong(error)) => put_line_error(out, error),
        Err(ReplyError::Refused(refusal)) => put_refusal(out, refusal),
    }
    write!(out, "\n");
}

fn put_reply(out: &mut Output, reply: Reply, payload: &[u8]) {
    match reply {
        Reply::Made => write!(out, "made"),
        Reply::Set => write!(out, "set"),
        Reply::Lent(room) => write!(out, "lent {room}"),
        Reply::Sent(length) => put_sent(out, tool_text::first(payload, length)),
        Reply::Polled(due) => write!(out, "{}", due_name(due)),
        Reply::Delivered(reports, node) => put_delivery(out, reports, node),
        Reply::Held(holding) => write!(out, "{}", lease_name(holding)),
        Reply::Verified(change) => write!(out, "{}", change_name(change)),
        Reply::Failed => write!(out, "failed"),
        Reply::Sending(key, counter) => {
            put_found_key(out, key);
            write!(out, " counter={counter}");
        }
        Reply::Receiving(key) => put_found_key(out, key),
        Reply::Shown(node) => put_node(out, node),
    }
}

fn put_found_key(out: &mut Output, key: Key) {
    write!(out, "key ");
    put_key(out, key);
}

fn put_sent(out: &mut Output, request: &[u8]) {
    write!(out, "sent {}", ByteString(request));
}

fn due_name(due: Due) -> &'static str {
    match due {
        Due::NotYet => "not yet",
        Due::SendAgain => "send again",
        Due::GaveUp => "gave up",
    }
}

fn lease_name(holding: LeaseStatus) -> &'static str {
    match holding {
        LeaseStatus::Valid => "yes",
        LeaseStatus::Expired => "no",
    }
}

fn change_name(change: Change) -> &'static str {
    match change {
        Change::Switched => "switched",
        Change::Kept => "kept",
    }
}
