// What the calls of a ledger answer.
use crate::ledger::Ledger;
use refusal::Refusal;

// Beside a refusal the ledger is the empty one, of first address 0 and size 0, which every call refuses.
// Kept: `opened` has verdict and ledger, and `demand1` (`Opens` in C) says of each refusal that its ledger is the empty one.
#[derive(Clone, Copy)]
pub struct OpenResult {
    pub verdict: Result<(), Refusal>,
    pub ledger: Ledger,
}

// The address, and the ledger as the call left it.
// Kept: `demand1` says that a refused call leaves the ledger as it was, so the ledger stands beside the refusal too.
#[derive(Clone, Copy)]
pub struct CallResult {
    pub answer: Result<u16, Refusal>,
    pub ledger: Ledger,
}
