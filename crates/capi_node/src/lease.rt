// Whether the short address holds.
ghost use Rattle.std.specs.Prelude.{◌≡◌};
ghost use Rattle.capi_node.specs.Calls.{holds_in};

use capi_judge::is_valid_node;
use node::LeaseStatus;
use node_image::{attempt_at, held_address_at, version_at};
use refusal::Refusal;

// Whether the short address of the node in an image holds at this time. RANGE: no image, the node; CLOCK.
pub fn address_holds_in(node: &[u8], time: u64) -> Result<LeaseStatus, Refusal>
    ensures { result ≡ holds_in node.now time }
{
    if !is_valid_node(node) {
        return Err(Refusal::Range);
    }
    let attempt = attempt_at(node, 3);
    if time < attempt.clock {
        return Err(Refusal::Clock);
    }
    let version = version_at(node, 601);
    if held_address_at(node, 527).holds_at(version, time) {
        return Ok(LeaseStatus::Valid);
    }
    Ok(LeaseStatus::Expired)
}
