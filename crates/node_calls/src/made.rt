// A node is made.
ghost use Rattle.std.specs.Prelude.{◌≡◌};
ghost use Rattle.node_calls.specs.Calls.{network_of, made_of, Makes};

use crate::store::store_result_node;
use cojp::{Octets, copied};
use image::{RANGE, clear};
use node::{MakeResult, Node};
use node_parameters::HeldOctets;
use node_parameters::octets::absent_octets;
use protocol_version::Version;

// The network identifier that a node is made with, if there is one; its length is judged by the node.
fn network_of(has_network: u8, network: &[u8]) -> HeldOctets
    ensures { result ≡ network_of has_network network.now }
{
    if has_network == 0 {
        return absent_octets();
    }
    let len = network.len();
    let value = Octets {
        len,
        bytes: copied(network, 0, len),
    };
    HeldOctets { held: true, value }
}

// A node of the form that the number asks for.
fn made_of(form: u8, role: u8, has_network: u8, network: &[u8]) -> MakeResult
    ensures { result ≡ made_of form role has_network network.now }
{
    let held = network_of(has_network, network);
    let version = if form == 0 {
        Version::Draft
    } else {
        Version::Published
    };
    Node::new(version, role, held)
}

// Makes a node. RANGE: form, role or has_network over 1, a network identifier over 16 bytes.
pub fn node_make(form: u8, role: u8, has_network: u8, network: &[u8], node: &mut [u8]) -> u32
    ensures { Makes form role has_network network.now node.old result node.new }
{
    if node.len() != 878 {
        return RANGE;
    }
    if 1 < form {
        clear(node);
        return RANGE;
    }
    if 1 < has_network {
        clear(node);
        return RANGE;
    }
    let made = made_of(form, role, has_network, network);
    store_result_node(made.verdict, made.node, node)
}
