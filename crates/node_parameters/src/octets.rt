// JRC address, network identifier and prefix.
ghost use Rattle.std.specs.Prelude.{◌≡◌};
ghost use Rattle.node_parameters.specs.Octets.{absent_octets, known_octets, valid_octets, valid_jrc, identifier_in, octets_after};

use cojp::{Disposition, Octets, OctetsParameter, is_taken, no_octets};

// Without one the value does not count. An empty one is not an absent one.
#[derive(Clone, Copy)]
pub struct HeldOctets {
    pub held: bool,
    pub value: Octets,
}

// No byte string; it is how a node is told that there is no network identifier.
pub fn absent_octets() -> HeldOctets
    ensures { result ≡ absent_octets }
{
    HeldOctets {
        held: false,
        value: no_octets(Disposition::Absent).value,
    }
}

impl HeldOctets {
    // The byte string where there is one, with nothing beside it where there is none.
    pub fn known(self) -> HeldOctets
        ensures { result ≡ known_octets self }
    {
        if self.held { self } else { absent_octets() }
    }

    // Whether it may be a network identifier or a prefix.
    pub fn valid(self) -> bool
        ensures { result ≡ valid_octets self }
    {
        !self.held || self.value.len <= 16
    }

    // Whether it may be a JRC address.
    pub fn valid_jrc(self) -> bool
        ensures { result ≡ valid_jrc self }
    {
        !self.held || self.value.len == 16
    }

    // It as a join request's network identifier.
    pub fn parameter(self) -> OctetsParameter
        ensures { result ≡ identifier_in self }
    {
        if !self.held {
            return no_octets(Disposition::Absent);
        }
        OctetsParameter {
            disposition: Disposition::Taken,
            value: self.value,
        }
    }

    // The byte string after a configuration, by the node's report of the parameter: the one taken, else this one.
    pub fn after(self, report: Disposition, parameter: OctetsParameter) -> HeldOctets
        ensures { result ≡ octets_after report parameter.value self }
    {
        if !is_taken(report) {
            return self;
        }
        HeldOctets {
            held: true,
            value: parameter.value,
        }
    }
}
