// The library for C: each export calls the function of its name in the crate pothatch and states its clauses again.
#![tactic(auto)]

mod cipher;
mod ledger;
mod library;
mod name;
mod nodes;
mod payload;
mod proxy;
mod replay;
mod serial;
mod usage;
