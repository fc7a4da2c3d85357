// A short address and its lease.
ghost use Rattle.std.specs.Prelude.{◌≡◌};
ghost use Rattle.node_parameters.specs.Lease.{absent_address, valid_address, holds_at, address_after};

use cojp::{AddressParameter, Disposition, ShortAddress, is_taken, no_address};
use protocol_version::Version;
use short_address::is_address;

// A short address and when it was received; without one neither counts.
// Kept: C's image of a node has `held` and what stands beside it, and its exactness law hands both back.
#[derive(Clone, Copy)]
pub struct HeldAddress {
    pub held: bool,
    pub value: ShortAddress,
    pub received: u64,
}

pub fn absent_address() -> HeldAddress
    ensures { result ≡ absent_address }
{
    HeldAddress {
        held: false,
        value: no_address(Disposition::Absent).value,
        received: 0,
    }
}

impl HeldAddress {
    // Whether a node with this clock may hold it.
    pub fn valid(self, clock: u64) -> bool
        ensures { result ≡ valid_address clock self }
    {
        !self.held || (is_address(self.value.bytes) && self.received <= clock)
    }

    // Whether the address holds at this time; without one none does.
    #[tactic(auto, unfolding(crate::specs::Lease::holds_at))]
    pub fn holds_at(self, version: Version, time: u64) -> bool
        ensures { result ≡ holds_at version self time }
    {
        self.held
            && (!self.value.leased
                || time.saturating_sub(self.received) / version.lease_unit() < self.value.lease)
    }

    // The address after a configuration: the one taken at this time, else this one.
    pub fn after(self, time: u64, parameter: AddressParameter) -> HeldAddress
        ensures { result ≡ address_after time parameter self }
    {
        if !is_taken(parameter.disposition) {
            return self;
        }
        HeldAddress {
            held: true,
            value: parameter.value,
            received: time,
        }
    }
}
