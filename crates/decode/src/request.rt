// The commands `request HEX`, `new-request HEX` and their strict ones.
use crate::parameter::{put_octets, put_parameter};
use cojp::{JoinRequest, RequestRead};
use protocol_version::Version;
use tool_notation::put_passed;
use tool_text::output::Output;

// The object, or the refusal.
pub fn put_read(out: &mut Output, version: Version, read: RequestRead) {
    match read.verdict {
        Ok(()) => put_request(out, version, read.request),
        Err(refusal) => tool_notation::put_refusal(out, refusal),
    }
}

fn put_request(out: &mut Output, version: Version, request: JoinRequest) {
    write!(out, "accepted role={}", request.role);
    put_octets(out, " network=", version, request.network);
    if version == Version::Draft {
        put_passed(out, request.unknown);
        return;
    }
    // what a node could not act on
    let unsupported = request.unsupported;
    put_parameter(
        out,
        " unsupported=",
        version,
        unsupported.disposition,
        |out| {
            tool_notation::put_unsupported(out, unsupported.value);
        },
    );
    put_passed(out, request.unknown);
    write!(out, " reports=");
    tool_notation::put_faults(out, request.errors);
}
