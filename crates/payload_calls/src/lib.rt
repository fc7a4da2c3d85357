// Payloads read, written and merged for C: objects are images in lent bytes, forms and readings are numbers. RANGE comes first where there
// is no such number, or where what was lent is not of its size or no image; then each call is that of the function behind it.
#![tactic(auto)]

mod asked;
mod merge;
mod read;
mod store;
mod write;

ghost use Rattle.payload_calls.specs.Laws.{PayloadRefusals};

pub use asked::{is_reading, reading_of, version_of};
pub use merge::configuration_merge;
pub use read::{configuration_read, request_read};
pub use store::{store_configuration, store_request};
pub use write::{configuration_write, request_write};

// A refused call leaves its destination byte for byte, and its results all zero.
pub fn refusals_keep_law()
    ensures { PayloadRefusals }
{}
