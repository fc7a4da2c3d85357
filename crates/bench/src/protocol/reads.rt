// Reading.
use crate::protocol::fold::{configuration_number, verdict_number};
use cojp::RequestRead;
use cojp_read::{read_configuration, read_request};
use protocol_version::Version;

// Reads a configuration and looks at few places of it: for timing.
#[unsafe(no_mangle)]
pub extern "C" fn bench_configuration(payload: &[u8]) -> u64 {
    let r = read_configuration(payload, Version::Draft, false);
    if r.verdict.is_err() {
        return 0;
    }
    let c = r.configuration;
    (c.keys.value.count as u64) ^ c.address.value.lease ^ c.unknown
}

// The one call of the reader of requests, so that the compiler makes one reader of the draft's form of it, as in a program that reads no
// other.
pub(crate) fn draft_request(payload: &[u8]) -> RequestRead {
    read_request(payload, Version::Draft, false)
}

// Reads a join request, the same way.
#[unsafe(no_mangle)]
pub extern "C" fn bench_request(payload: &[u8]) -> u64 {
    let r = draft_request(payload);
    if r.verdict.is_err() {
        return 0;
    }
    let q = r.request;
    u64::from(q.role) ^ q.unknown
}

// The whole answer to a configuration as a number, its values looked at in the places that `pick` names: for comparing.
#[unsafe(no_mangle)]
pub extern "C" fn bench_configuration_number(payload: &[u8], pick: u8) -> u64 {
    let r = read_configuration(payload, Version::Draft, false);
    (verdict_number(r.verdict) % 256 * 256) ^ configuration_number(r.configuration, pick)
}
