// One record of a recorded trace (document 02, request 4): a byte of kind, then a body whose length the kind fixes.
#![tactic(auto)]

mod entries;
mod fields;

ghost use Rattle.trace_record.specs.Layout.{EntriesSay};

pub use entries::{DELIVERY_SIZE, Entry, NEW_SIZE, POLL_SIZE, START_SIZE, VERIFIED_SIZE, entry_at};

// The first byte of a record is the number of its kind, and the record's numbers follow it.
pub fn kind_law()
    ensures { EntriesSay }
{}
