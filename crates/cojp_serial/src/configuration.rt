// The end of a payload that is read as a configuration.
ghost use Rattle.std.specs.Prelude.{◌≡◌};
ghost use Rattle.cbor.specs.Strict.{head_by};
ghost use Rattle.cojp.specs.Configuration.{read_configuration_by};
ghost use Rattle.cojp_serial.specs.State.{configuration_end};

use crate::object::end;
use crate::state::SerialState;
use cojp::ConfigurationRead;
use protocol_version::Version;

// The answer of the reading, or the refusal beside the empty configuration; and the arrival afterwards.
#[derive(Clone, Copy)]
pub struct ConfigurationEnd {
    pub read: ConfigurationRead,
    pub state: SerialState,
}

// Reads what arrived as a configuration and marks the end, whatever the reading answers. The reading gets the bytes that arrived and no
// others of the store.
pub fn end_configuration(
    arrival: SerialState,
    store: &[u8],
    version: Version,
    strict: bool,
) -> ConfigurationEnd
    ensures { result ≡ configuration_end (read_configuration_by version (head_by strict)) arrival store.now }
{
    let (read, state) = end(arrival, store, version, strict);
    ConfigurationEnd { read, state }
}
