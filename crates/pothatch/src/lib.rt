// The library that C links, as the crate pothatch_c exports it: each function is that of its name in a crate of calls, which works on the
// lent bytes, or loads what they hold, calls the proved function behind it, and stores the result.
// Numbers and byte slices alone cross; state and results are structs of bytes, images. A call answers 0, or the refusal's number.
#![tactic(auto)]

pub mod cipher;
pub mod ledger;
pub mod library;
pub mod name;
pub mod nodes;
pub mod payload;
pub mod proxy;
pub mod replay;
pub mod serial;
pub mod usage;
mod wide;

ghost use Rattle.pothatch.specs.Laws.{RefusalsKeep, EmptiedIsNone, EmptiedIsEmpty};

// A refused call leaves state and destination byte for byte, but for the two marks of a payload in parts, and its results all zero.
pub fn refusals_keep_law()
    ensures { RefusalsKeep }
{
    payload_calls::refusals_keep_law();
    node_calls::refusals_keep_law();
    serial_calls::refusals_keep_law();
    replay_calls::refusals_keep_law();
    ledger_calls::refusals_keep_law();
    cipher_calls::refusals_keep_law();
    proxy_calls::refusals_keep_law();
}

// An emptied result is no image, so every call refuses it.
pub fn emptied_is_none_law()
    ensures { EmptiedIsNone }
{}

// An emptied result reads as the empty object.
pub fn emptied_is_empty_law()
    ensures { EmptiedIsEmpty }
{}
