// The join rate of RFC 9031.
ghost use Rattle.std.specs.Prelude.{◌≡◌};
ghost use Rattle.node_parameters.specs.Rate.{absent_rate, rate_after};

use cojp::{RateParameter, is_taken};

// Bytes a second; without one the value does not count.
#[derive(Clone, Copy)]
pub struct HeldRate {
    pub held: bool,
    pub value: u64,
}

pub fn absent_rate() -> HeldRate
    ensures { result ≡ absent_rate }
{
    HeldRate {
        held: false,
        value: 0,
    }
}

impl HeldRate {
    // The join rate after a configuration: the one taken, else this one.
    pub fn after(self, parameter: RateParameter) -> HeldRate
        ensures { result ≡ rate_after parameter self }
    {
        if !is_taken(parameter.disposition) {
            return self;
        }
        HeldRate {
            held: true,
            value: parameter.value,
        }
    }
}
