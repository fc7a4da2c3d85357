// The end of a payload that is read as a join request.
ghost use Rattle.std.specs.Prelude.{◌≡◌};
ghost use Rattle.cbor.specs.Strict.{head_by};
ghost use Rattle.cojp.specs.Request.{read_request_by};
ghost use Rattle.cojp_serial.specs.State.{request_end};

use crate::object::end;
use crate::state::SerialState;
use cojp::RequestRead;
use protocol_version::Version;

// The answer of the reading, or the refusal beside the empty request; and the arrival afterwards.
#[derive(Clone, Copy)]
pub struct RequestEnd {
    pub read: RequestRead,
    pub state: SerialState,
}

// Reads what arrived as a join request and marks the end, whatever the reading answers. The reading gets the bytes that arrived and no
// others of the store.
pub fn end_request(arrival: SerialState, store: &[u8], version: Version, strict: bool) -> RequestEnd
    ensures { result ≡ request_end (read_request_by version (head_by strict)) arrival store.now }
{
    let (read, state) = end(arrival, store, version, strict);
    RequestEnd { read, state }
}
