// The ledger of short addresses, for C: the ledger is an image in lent bytes, the places stand in lent memory. RANGE comes first where what
// was lent is not of its size or no image; then each call is the ledger's own.
#![tactic(auto)]

mod ledger;
mod store;

ghost use Rattle.ledger_calls.specs.Laws.{LedgerRefusals};

pub use ledger::{ledger_free, ledger_give_back, ledger_grant, ledger_open};

// A refused call leaves ledger and memory byte for byte, and its results all zero.
pub fn refusals_keep_law()
    ensures { LedgerRefusals }
{}
