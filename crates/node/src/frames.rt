// Keys for frames: which key to send with, which to receive with, and the radio's report of a verified frame.
ghost use Rattle.std.specs.Prelude.{◌≡◌};
ghost use Rattle.node_key_sets.specs.Frames.{switched};
ghost use Rattle.node.specs.Node.{keyed};
ghost use Rattle.node.specs.Frames.{sending, receive, verified};

use crate::node::Node;
use node_key_sets::frames::without_key;
use node_key_sets::{Change, KeyAnswer};
use refusal::Refusal;

// What a frame is sent with: the key and its counter, and the node with that counter one higher. Beside a refusal stand 0 and the node as
// it was. The node stands first: with a gap before it, the compiler copies it.
#[derive(Clone, Copy)]
pub struct SendResult {
    pub node: Node,
    pub answer: KeyAnswer,
    pub counter: u32,
}

#[derive(Clone, Copy)]
pub struct VerifyResult {
    pub change: Result<Change, Refusal>,
    pub node: Node,
}

impl Node {
    // The key to send a frame of this type with: the first active one that covers it and is not used up. RANGE: the node, the type; SILENT.
    #[tactic(auto, unfolding(crate::specs::Frames::sending))]
    pub fn sending_key(mut self, frame_type: u8) -> SendResult
        ensures { result ≡ sending self frame_type }
    {
        if !self.valid() {
            return SendResult {
                answer: without_key(Refusal::Range),
                counter: 0,
                node: self,
            };
        }
        let sending = self.sets.sending_key(frame_type);
        self.sets = sending.sets;
        SendResult {
            answer: sending.answer,
            counter: sending.counter,
            node: self,
        }
    }

    // The key to receive a frame of this type and key identifier with. RANGE: the node, the type, identifier 0; SILENT.
    #[tactic(auto, unfolding(crate::specs::Frames::receive))]
    pub fn receiving_key(self, frame_type: u8, identifier: u8) -> KeyAnswer
        ensures { result ≡ receive self frame_type identifier }
    {
        if !self.valid() {
            return without_key(Refusal::Range);
        }
        self.sets.receiving_key(frame_type, identifier)
    }

    // The node whose pending key set has become active.
    fn switched(mut self) -> Node
        ensures { result ≡ keyed self (switched self.sets) }
    {
        self.sets = self.sets.switched();
        self
    }

    // The radio reports a frame of this type and key identifier verified. Refused as `receiving_key` is.
    #[tactic(auto, unfolding(crate::specs::Frames::verified))]
    pub fn verified(self, frame_type: u8, identifier: u8) -> VerifyResult
        ensures { result ≡ verified self frame_type identifier }
    {
        if !self.valid() {
            return VerifyResult {
                change: Err(Refusal::Range),
                node: self,
            };
        }
        let change = self.sets.verified(frame_type, identifier);
        match change {
            Err(_) | Ok(Change::Kept) => VerifyResult { change, node: self },
            Ok(Change::Switched) => VerifyResult {
                change,
                node: self.switched(),
            },
        }
    }
}
