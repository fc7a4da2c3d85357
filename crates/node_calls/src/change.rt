// A node's image after a call that changes a part of the node: that part alone is stored.
ghost use Rattle.std.specs.Prelude.{true, ◌≡◌};
ghost use Rattle.image.specs.Part.{is_image};
ghost use Rattle.node_image.specs.Change.{Attempted};
ghost use Rattle.node_image.specs.Node.{node_image};

use node::Node;
use node_image::put_attempt;

// Stores a node that is the one in the image but for its join attempt.
pub(crate) fn put_node_attempt(dst: &mut [u8], node: Node)
    requires dst_value { is_image node_image dst.old ≡ true }
    requires attempted { Attempted (node_image.get dst.old) node }
    ensures { dst.new ≡ node_image.put node }
{
    node_image::laws();
    put_attempt(&mut dst[3..], node.attempt);
}
