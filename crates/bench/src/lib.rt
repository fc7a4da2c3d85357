#![tactic(auto)]

mod bytes;
pub mod cipher;
pub mod ledger;
pub mod protocol;
