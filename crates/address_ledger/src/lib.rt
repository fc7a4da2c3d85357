// The address ledger of a shift: which board holds which short address of a range, kept in lent memory of nine bytes an address.
#![tactic(auto)]

mod answer;
mod free;
mod ledger;
pub mod range;

pub use answer::{CallResult, OpenResult};
pub use ledger::Ledger;
