// Whether the short address holds.
ghost use Rattle.std.specs.Prelude.{◌≡◌};
ghost use Rattle.node.specs.Lease.{holds};

use crate::node::Node;
use refusal::Refusal;

// The answer to the question whether the address holds. No: its lease has run out, or there is no address.
#[derive(Clone, Copy)]
pub enum LeaseStatus {
    Valid,
    Expired,
}

impl Node {
    // Whether the short address holds at this time. RANGE: the node; CLOCK. The node and its clock stay as they are.
    #[tactic(auto, unfolding(crate::specs::Lease::holds))]
    pub fn address_holds(self, time: u64) -> Result<LeaseStatus, Refusal>
        ensures { result ≡ holds self time }
    {
        if !self.valid() {
            return Err(Refusal::Range);
        }
        if time < self.attempt.clock {
            return Err(Refusal::Clock);
        }
        if self.address.holds_at(self.version, time) {
            Ok(LeaseStatus::Valid)
        } else {
            Ok(LeaseStatus::Expired)
        }
    }
}
