// Join requests of both forms are read from payloads: one scan, and one walk over the pairs of the map.
// Join requests.
mod parameter;
mod role;
mod unsupported;

ghost use Rattle.std.specs.Prelude.{◌≡◌, ◌+◌, ◌<◌, ◌≤◌, ◌^◌, true, drop, IfOk};
ghost use Rattle.cbor.specs.Strict.{head_by};
ghost use Rattle.cojp.specs.Reading.{bind};
ghost use Rattle.cojp.specs.Request.{request_state, request_form, settled, read_request_by};
ghost use Rattle.cojp.specs.Walk.{payload_read_by};
ghost use Rattle.cojp_read.specs.Pair.{reading_in, PairTaken};

use crate::octets::take_octets;
use crate::request::parameter::{RequestParameter, request_parameter_of};
use crate::request::role::role_once;
use crate::request::unsupported::unsupported_once;
use cojp::{JoinRequest, RequestRead, RequestState, empty_request, is_owing};
use cojp_map::{item_end, labelled_at, open_payload};
use protocol_version::Version;
use refusal::Refusal;

// The answer after the last pair: OWED where a network identifier is due.
fn settled_request(request: &JoinRequest, version: Version) -> Result<(), Refusal>
    ensures { reading_in (λ x. request.now) result ≡ settled version (request_state true request.now) }
{
    if is_owing(version, request.role, request.network.disposition) {
        return Err(Refusal::Owed);
    }
    Ok(())
}

// Takes the pair at a place into what was gathered: where the bytes go on.
fn take_pair(
    state: &mut RequestState,
    s: &[u8],
    at: usize,
    version: Version,
) -> Result<usize, Refusal>
    requires { state.old.request.unknown + 1 < 2 ^ 64 }
    ensures taken { PairTaken (request_form version) state.old s.now (drop at s.now) result state.new }
    ensures few { IfOk result (λ n. state.new.request.unknown ≤ state.old.request.unknown + 1) }
{
    let (label, value) = labelled_at(s, at)?;
    match request_parameter_of(version, label) {
        RequestParameter::Role => {
            let role = role_once(s, value, version, state.named, state.request.errors)?;
            state.named = true;
            state.request.role = role.role;
            state.request.errors = role.errors;
            Ok(role.next)
        }
        RequestParameter::Network => {
            take_octets(&mut state.request.network, s, value, 0, version)
        }
        RequestParameter::Unsupported => {
            let held = state.request.unsupported.disposition;
            let reports = unsupported_once(s, value, held, state.request.errors)?;
            state.request.unsupported = reports.parameter;
            state.request.errors = reports.errors;
            Ok(reports.next)
        }
        RequestParameter::Unknown => {
            state.request.unknown += 1;
            Ok(item_end(s, value))
        }
    }
}

// Takes the pairs of a payload in their order, up to the first refusal.
fn take_pairs(
    state: &mut RequestState,
    payload: &[u8],
    version: Version,
    strict: bool,
) -> Result<(), Refusal>
    requires { state.old.request.unknown ≡ 0 }
    ensures { reading_in (λ x. state.new) result ≡ payload_read_by (request_form version) (head_by strict) state.old payload.now }
{
    let map = open_payload(payload, strict)?;
    let mut at = map.start;
    for _ in 0..map.count {
        at = take_pair(state, payload, at, version)?;
    }
    Ok(())
}

// Reads what a join request is to be into an empty one.
fn gather(
    state: &mut RequestState,
    payload: &[u8],
    version: Version,
    strict: bool,
) -> Result<(), Refusal>
    requires { state.old.request.unknown ≡ 0 }
    ensures { reading_in (λ x. state.new.request) result
        ≡ bind (payload_read_by (request_form version) (head_by strict) state.old payload.now) (settled version) }
{
    take_pairs(state, payload, version, strict)?;
    settled_request(&state.request, version)
}

// Reads a join request from a payload. A strict reading refuses a head that is longer than necessary as LOOSE.
pub fn read_request(payload: &[u8], version: Version, strict: bool) -> RequestRead
    ensures { result ≡ read_request_by version (head_by strict) payload.now }
{
    let mut state = RequestState {
        named: false,
        request: empty_request(),
    };
    // Kept: a refusal has the empty request beside it (document 01; the clause `ReadersDemand1` of cojp).
    match gather(&mut state, payload, version, strict) {
        Ok(()) => RequestRead {
            verdict: Ok(()),
            request: state.request,
        },
        Err(why) => RequestRead {
            verdict: Err(why),
            request: empty_request(),
        },
    }
}
