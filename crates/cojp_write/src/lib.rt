// Writes join requests and configurations: what is in range, the parameters' sizes and bytes, and the whole maps.
#![tactic(auto)]

pub mod configuration;
pub mod octets;
pub mod range;
pub mod request;

pub use configuration::write_configuration;
pub use request::write_request;
