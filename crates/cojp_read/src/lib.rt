// Reads join requests and configurations from payloads: one scan, and one walk over the pairs of the map.
#![tactic(auto)]

pub mod configuration;
mod octets;
pub mod request;

pub use configuration::read_configuration;
pub use request::read_request;
