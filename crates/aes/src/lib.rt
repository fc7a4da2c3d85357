// AES-128 encryption (FIPS 197).
#![tactic(auto)]

mod cipher;
mod columns;
mod expansion;
mod tables;

ghost use Rattle.aes.specs.Laws.{AesLaws};

pub use cipher::{add_round_key, encrypt, encrypt_by};
pub use expansion::expand;
pub use tables::{round_table, substitution};

// What the definitions are, for the layers above: each inverse is one, the cipher's block has sixteen elements, bytes where the
// key is of bytes, the table of the rounds is right, and over a right table and bytes the rounds are FIPS 197's.
pub fn laws()
    ensures { AesLaws }
{}
