// Keys for frames.
ghost use Rattle.std.specs.Prelude.{◌≡◌, length, replicate};
ghost use Rattle.refusal.specs.Verdict.{verdict_number};
ghost use Rattle.image.specs.Effects.{on_accept};
ghost use Rattle.node.specs.Frames.{verified};
ghost use Rattle.node_image.specs.Answers.{frame_key_image};
ghost use Rattle.node_image.specs.Node.{node_image};
ghost use Rattle.node_key_sets.specs.Frames.{change_verdict};
ghost use Rattle.capi_node.specs.Calls.{node_in, change_in, ReceivesIn, SendsIn};

use crate::find::receiving_key_in;
use crate::serve::{serving_in, take_counter_in};
use crate::switch::{change_in, switch_in};
use capi_judge::is_valid_node;
use image::{RANGE, clear};
use link_key::Key;
use node_image::put_frame_key;
use node_key_sets::Change;
use refusal::Refusal;

// The number of SILENT.
// Kept: a number, since C is answered numbers and `SendsIn` states this one.
const SILENT: u32 = 14;

// The key to send a frame with, and its counter, which rises by one in the image. RANGE: the struct, no image, the node, the type; SILENT.
pub fn send_in(node: &mut [u8], frame_type: u8, key: &mut [u8]) -> u32
    ensures { SendsIn frame_type node.old key.old result node.new key.new }
{
    if key.len() != 33 {
        return RANGE;
    }
    if !is_valid_node(node) {
        clear(key);
        return RANGE;
    }
    if 1 < frame_type {
        clear(key);
        return RANGE;
    }
    let Some(index) = serving_in(node, frame_type) else {
        clear(key);
        return SILENT;
    };
    take_counter_in(node, index, key);
    0
}

// A frame's key as a result.
fn store_key(verdict: Result<(), Refusal>, key: Key, out: &mut [u8]) -> u32
    requires { length out.old ≡ 33 }
    ensures number { result ≡ verdict_number verdict }
    ensures out { out.new ≡ on_accept verdict (replicate 33 0) (frame_key_image.put (key, 0)) }
{
    match verdict {
        Ok(()) => {
            put_frame_key(out, key, 0);
            0
        }
        Err(why) => {
            clear(out);
            why.number() as u32
        }
    }
}

// The key to receive a frame with. RANGE: the struct, no image, the node, the type, identifier 0; SILENT.
pub fn receive_in(node: &[u8], frame_type: u8, identifier: u8, key: &mut [u8]) -> u32
    ensures { ReceivesIn frame_type identifier node.now key.old result key.new }
{
    if key.len() != 33 {
        return RANGE;
    }
    if !is_valid_node(node) {
        clear(key);
        return RANGE;
    }
    let answer = receiving_key_in(node, frame_type, identifier);
    store_key(answer.verdict, answer.key, key)
}

// The radio reports a frame of this type and key identifier verified. Refused as `receive_in` is.
pub fn verified_in(node: &mut [u8], frame_type: u8, identifier: u8) -> Result<Change, Refusal>
    ensures change { result ≡ change_in node.old frame_type identifier }
    ensures node { node.new ≡ on_accept (change_verdict result) node.old
        (node_image.put (verified (node_in node.old) frame_type identifier).node) }
{
    node_image::laws();
    if !is_valid_node(node) {
        return Err(Refusal::Range);
    }
    let change = change_in(node, frame_type, identifier)?;
    if let Change::Switched = change {
        switch_in(node);
    }
    Ok(change)
}
