// The pending key set becomes the active one.
ghost use Rattle.std.specs.Prelude.{true, cond, ◌++◌, ◌≡◌, length, take, drop, replicate};
ghost use Rattle.image.specs.Part.{is_image};
ghost use Rattle.node.specs.Node.{keyed};
ghost use Rattle.node_image.specs.Node.{sets_part, node_image};
ghost use Rattle.node_key_sets.specs.Frames.{switched, effect, verified_in, has_switched};
ghost use Rattle.capi_node.specs.Calls.{node_in};

use crate::find::{find_at, receiving_key_in};
use image::clear;
use node_key_sets::Change;
use refusal::Refusal;

// Copies the bytes of the pending set over those of the active one.
fn copy_pending(node: &mut [u8])
    requires { length node.old ≡ 878 }
    ensures { node.new
        ≡ take 29 node.old ++ (take 249 (drop 278 node.old) ++ drop 278 node.old) }
{
    node.copy_within(278..527, 29);
}

// The pending set becomes active, and none is pending.
pub(crate) fn switch_in(node: &mut [u8])
    requires { is_image node_image node.old ≡ true }
    ensures { node.new
        ≡ node_image.put (keyed (node_in node.old) (switched (node_in node.old).sets)) }
{
    node_image::laws();
    key_image::laws();
    copy_pending(node);
    clear(&mut node[278..527]);
}

// What a verified frame of this type and key identifier does to the key sets. Refused as `receiving_key_in` is.
pub(crate) fn change_in(s: &[u8], frame_type: u8, identifier: u8) -> Result<Change, Refusal>
    requires { length s.now ≡ 878 }
    ensures { verified_in (sets_part.get (drop 29 s.now)) frame_type identifier
        ≡ effect result (cond (has_switched result) (switched (sets_part.get (drop 29 s.now))) (sets_part.get (drop 29 s.now))) }
{
    link_key::set::laws();
    receiving_key_in(s, frame_type, identifier).verdict?;
    if find_at(s, 29, identifier).is_some() {
        return Ok(Change::Kept);
    }
    Ok(Change::Switched)
}
