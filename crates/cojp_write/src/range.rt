// Objects that are handed in are judged: what is outside its limits is RANGE. An absent or discarded parameter is not judged.
pub mod object;
pub mod parameter;
pub mod report;

pub use object::configuration_in_range;
pub(crate) use object::request_in_range;
pub(crate) use parameter::{address_in_range, jrc_in_range, keys_in_range, octets_in_range};
