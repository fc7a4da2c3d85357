// The end of a payload.
ghost use Rattle.std.specs.Prelude.{true, false, not, eqb, ◌≡◌, MatchOption};
ghost use Rattle.payload_calls.specs.Asked.{version_of};
ghost use Rattle.serial_calls.specs.Ends.{may_end, EndsRequest, EndsConfiguration};

use crate::serial::{is_serial, put_serial, serial_in};
use cojp_serial::{end_configuration, end_request};
use image::{RANGE, clear};
use payload_calls::{reading_of, store_configuration, store_request};
use protocol_version::Version;

// The version and whether the reading is strict, where there are an image, such a form and such a reading.
fn end_of(serial: &[u8], form: u64, reading: u64) -> Option<(Version, bool)>
    ensures { MatchOption result (may_end serial.now form reading ≡ false)
        (λ x. (may_end serial.now form reading ≡ true) × (x.0 ≡ version_of form) × (x.1 ≡ not (eqb reading 0))) }
{
    if is_serial(serial) {
        reading_of(form, reading)
    } else {
        None
    }
}

// Reads what arrived as a join request; the end stays marked in the image, also where the reading is refused.
pub fn serial_end_request(
    serial: &mut [u8],
    store: &[u8],
    form: u64,
    reading: u64,
    out: &mut [u8],
) -> u32
    ensures { EndsRequest serial.old store.now form reading out.old result serial.new
        out.new }
{
    if out.len() != 296 {
        return RANGE;
    }
    let Some((version, strict)) = end_of(serial, form, reading) else {
        clear(out);
        return RANGE;
    };
    let end = end_request(serial_in(serial), store, version, strict);
    put_serial(serial, end.state);
    store_request(end.read.verdict, end.read.request, out)
}

// The same of a configuration.
pub fn serial_end_configuration(
    serial: &mut [u8],
    store: &[u8],
    form: u64,
    reading: u64,
    out: &mut [u8],
) -> u32
    ensures { EndsConfiguration serial.old store.now form reading out.old result serial.new
        out.new }
{
    if out.len() != 570 {
        return RANGE;
    }
    let Some((version, strict)) = end_of(serial, form, reading) else {
        clear(out);
        return RANGE;
    };
    let end = end_configuration(serial_in(serial), store, version, strict);
    put_serial(serial, end.state);
    store_configuration(end.read.verdict, end.read.configuration, out)
}
