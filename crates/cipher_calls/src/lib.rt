// AES-CCM-16-64-128, for C: key and nonce are lent bytes. RANGE comes first where they are not of their size;
// then each call is the cipher's own.
#![tactic(auto)]

mod cipher;
mod store;

ghost use Rattle.cipher_calls.specs.Laws.{CipherRefusals};

pub use cipher::{seal, unseal};

// A refused call leaves its destination byte for byte, and answers no length.
pub fn refusals_keep_law()
    ensures { CipherRefusals }
{}
