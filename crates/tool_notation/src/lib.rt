// How the desk tools write refusals, byte strings, bad parameters, keys, key sets, lists and reports (docs/TOOLS.md), after CBOR's
// diagnostic notation; and how much of a payload they keep.
#![tactic(auto)]

pub mod fault;
pub mod key;
pub mod list;

use cojp::Octets;
pub use fault::put_faults;
pub use key::{put_key, put_key_set};
pub use list::{put_blacklist, put_unsupported};
use protocol_version::Version;
use refusal::Refusal;
use tool_text::first;
use tool_text::output::{ByteString, Output};

// What is kept of a payload: one byte more than it may have is enough to be answered LONG.
pub type Payload = [u8; 257];

pub fn no_payload() -> Payload {
    [0; 257]
}

// A refusal, as refused 5 TYPE; zeros fill its name up.
pub fn put_refusal(out: &mut Output, refusal: Refusal) {
    write!(out, "refused {} ", refusal.number());
    for letter in refusal.name().iter().take_while(|b| **b != 0) {
        out.byte(*letter);
    }
}

// A byte string of at most 16 bytes.
pub fn put_octets(out: &mut Output, octets: Octets) {
    write!(out, "{}", ByteString(first(&octets.bytes, octets.len)));
}

// The word for a bad parameter: the draft's are discarded, those of RFC 9031 malformed.
pub fn put_bad(out: &mut Output, version: Version) {
    match version {
        Version::Draft => write!(out, "discarded"),
        Version::Published => write!(out, "malformed"),
    }
}

// How many labels were passed over.
pub fn put_passed(out: &mut Output, passed: u64) {
    write!(out, " passed={passed}");
}
