// Writing: an object is read from a payload and written again, and the length is answered, 0 for a refusal. What the writing takes is what
// this takes less the reading.
use crate::protocol::reads::draft_request;
use cojp_read::read_configuration;
use cojp_write::{write_configuration, write_request};
use protocol_version::Version;

#[unsafe(no_mangle)]
pub extern "C" fn bench_rewrite_configuration(dst: &mut [u8], payload: &[u8]) -> usize {
    let r = read_configuration(payload, Version::Draft, false);
    write_configuration(dst, r.configuration, Version::Draft).unwrap_or(0)
}

#[unsafe(no_mangle)]
pub extern "C" fn bench_rewrite_request(dst: &mut [u8], payload: &[u8]) -> usize {
    let r = draft_request(payload);
    write_request(dst, r.request, Version::Draft).unwrap_or(0)
}
