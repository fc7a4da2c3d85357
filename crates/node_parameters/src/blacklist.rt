// The blacklist of RFC 9031.
ghost use Rattle.std.specs.Prelude.{◌≡◌};
ghost use Rattle.node_parameters.specs.Blacklist.{absent_list, valid_list, list_after};

use cojp::{Disposition, ItemList, ListParameter, is_taken, no_list};
use cojp_list::is_blacklist;

// Without one the value does not count. An empty one is not an absent one.
#[derive(Clone, Copy)]
pub struct HeldList {
    pub held: bool,
    pub value: ItemList,
}

pub fn absent_list() -> HeldList
    ensures { result ≡ absent_list }
{
    HeldList {
        held: false,
        value: no_list(Disposition::Absent).value,
    }
}

impl HeldList {
    // Whether a node may hold it.
    pub fn valid(self) -> bool
        ensures { result ≡ valid_list self }
    {
        !self.held || is_blacklist(self.value)
    }

    // The blacklist after a configuration: the one taken, else this one.
    pub fn after(self, parameter: ListParameter) -> HeldList
        ensures { result ≡ list_after parameter self }
    {
        if !is_taken(parameter.disposition) {
            return self;
        }
        HeldList {
            held: true,
            value: parameter.value,
        }
    }
}
