// Payloads, and the objects in them.
ghost use Rattle.payload_calls.specs.Merge.{Merges};
ghost use Rattle.payload_calls.specs.Read.{ReadsRequest, ReadsConfiguration};
ghost use Rattle.payload_calls.specs.Write.{Writes, request_writing, configuration_writing};

// Reads a join request.
#[unsafe(no_mangle)]
pub extern "C" fn pothatch_request_read(
    form: u64,
    reading: u64,
    payload: &[u8],
    out: &mut [u8],
) -> u32
    ensures { ReadsRequest form reading payload.now out.old result out.new }
{
    pothatch::payload::pothatch_request_read(form, reading, payload, out)
}

// Reads a configuration.
#[unsafe(no_mangle)]
pub extern "C" fn pothatch_configuration_read(
    form: u64,
    reading: u64,
    payload: &[u8],
    out: &mut [u8],
) -> u32
    ensures { ReadsConfiguration form reading payload.now out.old result out.new }
{
    pothatch::payload::pothatch_configuration_read(form, reading, payload, out)
}

// Writes the join request in an image.
#[unsafe(no_mangle)]
pub extern "C" fn pothatch_request_write(
    form: u64,
    object: &[u8],
    dst: &mut [u8],
    length: &mut u64,
) -> u32
    ensures { Writes (request_writing form object.now) dst.old result dst.new length.new }
{
    pothatch::payload::pothatch_request_write(form, object, dst, length)
}

// Writes the configuration in an image.
#[unsafe(no_mangle)]
pub extern "C" fn pothatch_configuration_write(
    form: u64,
    object: &[u8],
    dst: &mut [u8],
    length: &mut u64,
) -> u32
    ensures { Writes (configuration_writing form object.now) dst.old result dst.new
        length.new }
{
    pothatch::payload::pothatch_configuration_write(form, object, dst, length)
}

// Joins two configurations: each parameter from the second where it is taken there, else from the first.
#[unsafe(no_mangle)]
pub extern "C" fn pothatch_configuration_merge(first: &[u8], second: &[u8], out: &mut [u8]) -> u32
    ensures { Merges first.now second.now out.old result out.new }
{
    pothatch::payload::pothatch_configuration_merge(first, second, out)
}
