// The key that a frame is sent with.
ghost use Rattle.std.specs.Prelude.{true, ◌≡◌, ◌+◌, ◌<◌, length, drop, set, IfSome};
ghost use Rattle.image.specs.Part.{is_image};
ghost use Rattle.key_image.specs.Key.{counted_set_part};
ghost use Rattle.link_key_counters.specs.Counters.{slot, serves, first_serving};
ghost use Rattle.node_image.specs.Answers.{frame_key_image};
ghost use Rattle.node_image.specs.Change.{recounted};
ghost use Rattle.node_image.specs.Node.{node_image};
ghost use Rattle.capi_node.specs.Calls.{node_in};
ghost use Rattle.capi_node.specs.Slots.{key_at, counter_at, slot_found};

use crate::find::key_count_at;
use image::put_number;
use key_image::{counter_at, key_at};
use node_image::put_frame_key;

// Whether the active key at an index covers the frame type and is not used up.
fn serves_at(s: &[u8], index: usize, frame_type: u8) -> bool
    requires { (length s.now ≡ 878) × (index < 8) }
    ensures { result ≡ serves frame_type (slot index (key_at s.now index) (counter_at s.now index)) }
{
    let counter = counter_at(s, 246 + 4 * index);
    if counter == 4294967295 {
        return false;
    }
    key_at(s, 30 + 27 * index).covers(frame_type)
}

// The index of the first active key that covers the frame type and is not used up.
pub(crate) fn serving_in(s: &[u8], frame_type: u8) -> Option<usize>
    requires { length s.now ≡ 878 }
    ensures slot { first_serving frame_type (counted_set_part.get (drop 29 s.now)) ≡ slot_found s.now result }
    ensures low { IfSome result (λ i. i < 8) }
{
    for i in 0..key_count_at(s, 29) {
        if serves_at(s, i, frame_type) {
            return Some(i);
        }
    }
    None
}

// Hands back the active key at an index with its counter, which rises by one in the image.
pub(crate) fn take_counter_in(node: &mut [u8], index: usize, key: &mut [u8])
    requires node_value { is_image node_image node.old ≡ true }
    requires index_bound { (index < 8) × (length key.old ≡ 33) }
    ensures node { node.new ≡ node_image.put (recounted (node_in node.old)
        (set (node_in node.old).sets.active.counters index (counter_at node.old index + 1))) }
    ensures key { key.new
        ≡ frame_key_image.put (key_at node.old index, counter_at node.old index) }
{
    node_image::laws();
    key_image::laws();
    let at = 246 + 4 * index;
    let counter = counter_at(node, at);
    let taken = key_at(node, 30 + 27 * index);
    put_frame_key(key, taken, counter);
    put_number(&mut node[at..], 4, counter as u64 + 1);
}
