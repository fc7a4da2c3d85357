// Objects are written.
ghost use Rattle.payload_calls.specs.Write.{Writes, request_writing, configuration_writing};

use crate::asked::known_version;
use crate::store::store_length;
use cojp_write::{write_configuration, write_request};
use image::RANGE;
use object_image::{configuration_in, is_configuration, is_request, request_in};

// Writes the join request in an image.
pub fn request_write(form: u64, object: &[u8], dst: &mut [u8], length: &mut u64) -> u32
    ensures { Writes (request_writing form object.now) dst.old result dst.new length.new }
{
    let Some(version) = known_version(form) else {
        *length = 0;
        return RANGE;
    };
    if !is_request(object) {
        *length = 0;
        return RANGE;
    }
    let written = write_request(dst, request_in(object), version);
    store_length(written, length)
}

// Writes the configuration in an image.
pub fn configuration_write(form: u64, object: &[u8], dst: &mut [u8], length: &mut u64) -> u32
    ensures { Writes (configuration_writing form object.now) dst.old result dst.new
        length.new }
{
    let Some(version) = known_version(form) else {
        *length = 0;
        return RANGE;
    };
    if !is_configuration(object) {
        *length = 0;
        return RANGE;
    }
    let written = write_configuration(dst, configuration_in(object), version);
    store_length(written, length)
}
