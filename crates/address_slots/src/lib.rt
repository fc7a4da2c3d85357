// The lent memory of an address ledger, nine bytes an address, and the summary that tells where an address is free.
#![tactic(auto)]

mod finding;
mod groups;
mod slot;

pub use finding::{find_board, find_slot};
pub use groups::{Summary, refresh_group, summarize};
pub use slot::{SLOT, SlotFound, hold_slot};
