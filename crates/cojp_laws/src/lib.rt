// What the object layer promises of its definitions of reading and writing, whoever writes and reads.
#![tactic(auto)]

pub mod addresses;
pub mod largest;
pub mod readers;
pub mod round_trip;
pub mod writers;

pub use addresses::addresses_law;
pub use largest::{
    draft_written, largest_attained_law, largest_configuration, longest_read_law, payload_size_law,
};
pub use readers::{reading_order_example, reading_order_law};
pub use round_trip::{
    configuration_in_place, configuration_round_trip, request_in_place, request_round_trip,
};
pub use writers::{writers_demand1, written_examples};
