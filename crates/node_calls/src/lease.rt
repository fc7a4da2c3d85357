// Whether the short address holds.
ghost use Rattle.std.specs.Prelude.{◌≡◌};
ghost use Rattle.node.specs.Lease.{holding_number};
ghost use Rattle.node_laws.specs.Calls.{asking};
ghost use Rattle.node_calls.specs.Calls.{Tells};
ghost use Rattle.node_calls.specs.Results.{lease_status_code};

use capi_node::address_holds_in;
use node::LeaseStatus;
use refusal::Refusal;

fn store_lease_status(holding: Result<LeaseStatus, Refusal>, holds: &mut u32) -> u32
    ensures number { result ≡ holding_number holding }
    ensures holds { holds.new ≡ lease_status_code holding }
{
    match holding {
        Err(why) => {
            *holds = 0;
            why.number() as u32
        }
        Ok(LeaseStatus::Valid) => {
            *holds = 1;
            0
        }
        Ok(LeaseStatus::Expired) => {
            *holds = 2;
            0
        }
    }
}

// Whether the short address holds: 1 it does, 2 it does not.
pub fn node_holds(node: &[u8], time: u64, holds: &mut u32) -> u32
    ensures { Tells (asking time) node.now result holds.new }
{
    node_laws::demand1();
    store_lease_status(address_holds_in(node, time), holds)
}
