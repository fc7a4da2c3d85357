// A turn: one node is asked to send a frame, and another receives it.
#![tactic(auto)]

pub mod answer;

ghost use Rattle.std.specs.Prelude.{◌≡◌};
ghost use Rattle.node.specs.Frames.{receive};
ghost use Rattle.network_turn.specs.Turn.{answer_of, judged, receives, turn};

pub use answer::{Answer, TurnResult};
use link_key::Key;
use node::Node;
use node_key_sets::Change;
use refusal::Refusal;

// The sender is asked for a frame of this type, and the receiver receives it with the identifier of the key answered. The radio
// reports the frame verified exactly where their keys are equal. A refusal ends the turn.
pub fn turn(sender: Node, receiver: Node, frame_type: u8) -> TurnResult
    ensures { result ≡ turn sender receiver frame_type }
{
    let sent = sender.sending_key(frame_type);
    let after = sent.node;
    let answer = sent.answer;
    let verdict = answer.verdict;
    match verdict {
        Err(why) => TurnResult {
            sender: after,
            receiver,
            answer: Err(why),
        },
        Ok(()) => {
            let key = answer.key;
            received(after, receiver, frame_type, key)
        }
    }
}

// The receiver receives a frame that was sent with the key.
fn received(sender: Node, receiver: Node, frame_type: u8, key: Key) -> TurnResult
    ensures { result ≡ receives sender receiver frame_type key (receive receiver frame_type key.identifier) }
{
    let found = receiver.receiving_key(frame_type, key.identifier);
    let verdict = found.verdict;
    match verdict {
        Err(why) => TurnResult {
            sender,
            receiver,
            answer: Err(why),
        },
        Ok(()) => {
            let held = found.key;
            judged(sender, receiver, frame_type, key, held)
        }
    }
}

// The radio compares the key that was sent with and the key that was found; a frame that failed is no call.
fn judged(sender: Node, receiver: Node, frame_type: u8, key: Key, found: Key) -> TurnResult
    ensures { result ≡ judged sender receiver frame_type key found }
{
    if key.same_key(found) {
        let reported = receiver.verified(frame_type, key.identifier);
        let change = reported.change;
        let node = reported.node;
        return TurnResult {
            sender,
            receiver: node,
            answer: answer_of(change),
        };
    }
    TurnResult {
        sender,
        receiver,
        answer: Ok(Answer::Failed),
    }
}

// What the receiver's answer to the report of a verified frame is in a turn.
fn answer_of(change: Result<Change, Refusal>) -> Result<Answer, Refusal>
    ensures { result ≡ answer_of change }
{
    match change {
        Err(why) => Err(why),
        Ok(Change::Switched) => Ok(Answer::Switched),
        Ok(Change::Kept) => Ok(Answer::Kept),
    }
}
