// Payloads are read.
ghost use Rattle.payload_calls.specs.Read.{ReadsRequest, ReadsConfiguration};

use crate::asked::reading_of;
use crate::store::{store_configuration, store_request};
use cojp_read::{read_configuration, read_request};
use image::{RANGE, clear};

// Reads a join request.
pub fn request_read(form: u64, reading: u64, payload: &[u8], out: &mut [u8]) -> u32
    ensures { ReadsRequest form reading payload.now out.old result out.new }
{
    if out.len() != 296 {
        return RANGE;
    }
    let Some((version, strict)) = reading_of(form, reading) else {
        clear(out);
        return RANGE;
    };
    let read = read_request(payload, version, strict);
    store_request(read.verdict, read.request, out)
}

// Reads a configuration.
pub fn configuration_read(form: u64, reading: u64, payload: &[u8], out: &mut [u8]) -> u32
    ensures { ReadsConfiguration form reading payload.now out.old result out.new }
{
    if out.len() != 570 {
        return RANGE;
    }
    let Some((version, strict)) = reading_of(form, reading) else {
        clear(out);
        return RANGE;
    };
    let read = read_configuration(payload, version, strict);
    store_configuration(read.verdict, read.configuration, out)
}
