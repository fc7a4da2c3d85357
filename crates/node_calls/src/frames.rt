// Keys for frames.
ghost use Rattle.std.specs.Prelude.{◌≡◌};
ghost use Rattle.node_laws.specs.Calls.{sending, receiving, reporting};
ghost use Rattle.node_calls.specs.Calls.{Does, Gives, Changes};
ghost use Rattle.node_calls.specs.Results.{change_code};

use capi_node::{receive_in, send_in, verified_in};
use image::number_of;
use node_key_sets::Change;
use refusal::{Refusal, verdict_of};

// The key to send a frame with, and its counter, which rises by one in the node.
pub fn node_send(node: &mut [u8], frame_type: u8, key: &mut [u8]) -> u32
    ensures { Changes 33 (sending frame_type) node.old key.old result node.new key.new }
{
    send_in(node, frame_type, key)
}

// The key to receive a frame with.
pub fn node_receive(node: &[u8], frame_type: u8, identifier: u8, key: &mut [u8]) -> u32
    ensures { Gives 33 (receiving frame_type identifier) node.now key.old result key.new }
{
    receive_in(node, frame_type, identifier, key)
}

fn change_code(change: Result<Change, Refusal>) -> u32
    ensures { result ≡ change_code change }
{
    match change {
        Err(_) => 0,
        Ok(Change::Switched) => 2,
        Ok(Change::Kept) => 1,
    }
}

// The radio verified such a frame: 1 the keys stay, 2 the pending set became active.
pub fn node_verified(node: &mut [u8], frame_type: u8, identifier: u8, change: &mut u32) -> u32
    ensures { Does (reporting frame_type identifier) node.old result node.new change.new }
{
    node_laws::demand1();
    let what = verified_in(node, frame_type, identifier);
    *change = change_code(what);
    number_of(verdict_of(what))
}
