// A payload is opened: its length, the item scan, and the map.
ghost use Rattle.cojp_map.specs.Pairs.{StartSpec};

use cbor::MapHead;
use cbor::scan::open_map;
use refusal::Refusal;

// Document 01's limit of a payload.
pub const PAYLOAD_BYTES: usize = 256;

// The payload's map: LONG, what the item scan, strict or not, refuses, or TYPE where it is no map.
pub fn open_payload(payload: &[u8], strict: bool) -> Result<MapHead, Refusal>
    ensures { StartSpec strict payload.now result }
{
    if PAYLOAD_BYTES < payload.len() {
        return Err(Refusal::Long);
    }
    match open_map(payload, strict)? {
        Some(map) => Ok(map),
        None => Err(Refusal::Type),
    }
}
