// One node's state, and how a node is made.
ghost use Rattle.std.specs.Prelude.{◌≡◌};
ghost use Rattle.node.specs.Node.{attempt_limits, fresh_node, unmade, made};

use cojp::{ErrorReports, no_error_reports};
use node_attempt::Attempt;
use node_attempt::attempt::idle;
use node_key_sets::KeySets;
use node_key_sets::sets::no_sets;
use node_parameters::address::absent_address;
use node_parameters::blacklist::absent_list;
use node_parameters::octets::absent_octets;
use node_parameters::rate::absent_rate;
use node_parameters::{HeldAddress, HeldList, HeldOctets, HeldRate};
use protocol_version::Version;
use refusal::Refusal;

#[derive(Clone, Copy)]
pub struct Node {
    // 0 ordinary, 1 border (6LBR).
    // Kept: a number, since another one is a value that `valid` and `made` refuse with RANGE, and that C hands over.
    pub role: u8,
    pub attempt: Attempt,
    pub sets: KeySets,
    pub address: HeldAddress,
    pub jrc: HeldOctets,
    pub network: HeldOctets,
    pub prefix: HeldOctets,
    // The form that the node speaks, from when it is made.
    pub version: Version,
    // Blacklist, join rate and reports for the next join request belong to the published form.
    pub blacklist: HeldList,
    pub rate: HeldRate,
    pub errors: ErrorReports,
}

// A node that was made; beside a refusal stands the empty node.
// Kept: the definition `unmade` in the clause of `new` and the theorem Demand1 of node_laws speak of the empty node.
#[derive(Clone, Copy)]
pub struct MakeResult {
    pub verdict: Result<(), Refusal>,
    pub node: Node,
}

// The limits of a join attempt: its first timeout in milliseconds, and how often the request is sent again.
#[derive(Clone, Copy)]
pub struct AttemptLimits {
    pub least: u64,
    pub most: u64,
    pub retransmissions: u8,
}

// A node as it is made, all but form, role and network identifier absent or 0.
fn fresh_node(version: Version, role: u8, network: HeldOctets) -> Node
    ensures { result ≡ fresh_node version role network }
{
    let octets = absent_octets();
    Node {
        role,
        attempt: idle(),
        sets: no_sets(),
        address: absent_address(),
        jrc: octets,
        network,
        prefix: octets,
        version,
        blacklist: absent_list(),
        rate: absent_rate(),
        errors: no_error_reports(),
    }
}

fn not_made() -> MakeResult
    ensures { result ≡ unmade }
{
    MakeResult {
        verdict: Err(Refusal::Range),
        node: fresh_node(Version::Draft, 0, absent_octets()),
    }
}

impl Node {
    pub const FIRST_TIMEOUT_LEAST: u64 = Attempt::FIRST_TIMEOUT_LEAST;

    pub const FIRST_TIMEOUT_MOST: u64 = Attempt::FIRST_TIMEOUT_MOST;

    pub const RETRANSMISSIONS: u8 = Attempt::RETRANSMISSIONS;

    // The three constants, with their values.
    pub fn limits() -> AttemptLimits
        ensures { result ≡ attempt_limits }
    {
        AttemptLimits {
            least: Node::FIRST_TIMEOUT_LEAST,
            most: Node::FIRST_TIMEOUT_MOST,
            retransmissions: Node::RETRANSMISSIONS,
        }
    }

    // An idle node of this version and role, perhaps with a network identifier. RANGE: role over 1, identifier over 16 bytes. Beside a
    // refusal is the empty node of the draft.
    #[tactic(auto, unfolding(crate::specs::Node::made))]
    pub fn new(version: Version, role: u8, network: HeldOctets) -> MakeResult
        ensures { result ≡ made version role network }
    {
        if 1 < role || !network.valid() {
            return not_made();
        }
        MakeResult {
            verdict: Ok(()),
            node: fresh_node(version, role, network.known()),
        }
    }
}
