// A payload that comes over a serial cable in parts, into a store that the caller lends, and is read at its end. What has come is a value
// beside the store; no byte of the store beyond it is ever read.
#![tactic(auto)]

pub mod configuration;
mod object;
pub mod parts;
pub mod request;
pub mod state;

ghost use Rattle.cojp_serial.specs.Example.{SerialExamples};
ghost use Rattle.cojp_serial.specs.Laws.{SerialLaws};

pub use configuration::{ConfigurationEnd, end_configuration};
pub use parts::{PartResult, part};
pub use request::{RequestEnd, end_request};
pub use state::{PartDecision, SerialState, reset};

// What holds of whole lists of these calls.
pub fn laws()
    ensures { SerialLaws }
{
    cojp::readers_demand1_law();
}

// A board after another at one fixture, computed, so that the laws speak of something.
pub fn serial_examples()
    ensures { SerialExamples }
{}
