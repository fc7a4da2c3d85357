// The end of a payload, whichever object it is read as.
ghost use Rattle.std.specs.Prelude.{◌≡◌, Bool, List, ℕ, length, take};
ghost use Rattle.cbor.specs.Strict.{head_by};
ghost use Rattle.cojp.specs.Configuration.{refuse_configuration, read_configuration_by};
ghost use Rattle.cojp.specs.Request.{refuse_request, read_request_by};
ghost use Rattle.protocol_version.specs.declared.Version.{Version};
ghost use Rattle.refusal.specs.declared.Refusal.{Refusal};
ghost use Rattle.cojp_serial.specs.State.{decision_of, end_read, end_state};

use crate::state::{PartDecision, SerialState};
use cojp::{ConfigurationRead, RequestRead, empty_configuration, empty_request};
use cojp_read::{read_configuration, read_request};
use protocol_version::Version;
use refusal::Refusal;

// What a payload may be read as: a refusal with the empty object beside it, and the reading.
pub(crate) trait Object: Copy {
    ghost refuse: { Refusal → Self };

    ghost reader: { Version → Bool → List ℕ → Self };

    fn refused(why: Refusal) -> Self
        ensures { result ≡ refuse why };

    fn read(payload: &[u8], version: Version, strict: bool) -> Self
        ensures { result ≡ reader version strict payload.now };
}

impl Object for ConfigurationRead {
    ghost refuse = { refuse_configuration };

    ghost reader = { λ version strict s. read_configuration_by version (head_by strict) s };

    fn refused(why: Refusal) -> ConfigurationRead {
        ConfigurationRead {
            verdict: Err(why),
            configuration: empty_configuration(),
        }
    }

    fn read(payload: &[u8], version: Version, strict: bool) -> ConfigurationRead {
        read_configuration(payload, version, strict)
    }
}

impl Object for RequestRead {
    ghost refuse = { refuse_request };

    ghost reader = { λ version strict s. read_request_by version (head_by strict) s };

    fn refused(why: Refusal) -> RequestRead {
        RequestRead {
            verdict: Err(why),
            request: empty_request(),
        }
    }

    fn read(payload: &[u8], version: Version, strict: bool) -> RequestRead {
        read_request(payload, version, strict)
    }
}

// Reads what arrived and marks the end, whatever the reading answers. The reading gets the bytes that arrived and no others of the store.
pub(crate) fn end<O: Object>(
    arrival: SerialState,
    store: &[u8],
    version: Version,
    strict: bool,
) -> (O, SerialState)
    ensures read { result.0 ≡ end_read O.refuse (O.reader version strict)
        (decision_of arrival (length store.now) 0) (take arrival.arrived store.now) }
    ensures state { result.1 ≡ end_state (decision_of arrival (length store.now) 0) arrival }
{
    match arrival.decision(store.len(), 0) {
        PartDecision::Outside => (O::refused(Refusal::Range), arrival),
        PartDecision::Overrun => (O::refused(Refusal::Long), arrival),
        PartDecision::Ended => (O::refused(Refusal::Phase), arrival),
        PartDecision::Open => {
            let read = O::read(&store[..arrival.arrived], version, strict);
            (read, arrival.end_marked())
        }
    }
}
