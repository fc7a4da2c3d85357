// What a node holds of the configurations that it took, and what it makes of each parameter.
#![tactic(auto)]

pub mod address;
pub mod blacklist;
pub mod dispositions;
pub mod error_reports;
pub mod octets;
pub mod rate;

ghost use Rattle.node_parameters.specs.Demand1.{ParametersDemand1};

pub use address::HeldAddress;
pub use blacklist::HeldList;
pub use dispositions::Dispositions;
pub use octets::HeldOctets;
pub use rate::HeldRate;

// Demand 1 for the parameters that a node holds.
pub fn demand1()
    ensures { ParametersDemand1 }
{}
