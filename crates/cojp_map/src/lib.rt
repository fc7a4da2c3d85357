// A payload's outermost map, which both objects are: it is scanned once, and its pairs are gone over one by one.
#![tactic(auto)]

pub mod once;
pub mod open;
pub mod pair;

pub use once::{is_seen, octets_once};
pub use open::open_payload;
pub use pair::{item_end, labelled_at};
