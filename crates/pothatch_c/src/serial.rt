// Payloads that come in parts.
ghost use Rattle.serial_calls.specs.Ends.{EndsRequest, EndsConfiguration};
ghost use Rattle.serial_calls.specs.Parts.{Resets, Parts};

// Begins anew, whatever stood in the image.
#[unsafe(no_mangle)]
pub extern "C" fn pothatch_serial_reset(serial: &mut [u8]) -> u32
    ensures { Resets serial.old result serial.new }
{
    pothatch::serial::pothatch_serial_reset(serial)
}

// Takes the bytes of a part into the store.
#[unsafe(no_mangle)]
pub extern "C" fn pothatch_serial_part(serial: &mut [u8], store: &mut [u8], part: &[u8]) -> u32
    ensures { Parts serial.old store.old part.now result serial.new store.new }
{
    pothatch::serial::pothatch_serial_part(serial, store, part)
}

// Reads what arrived as a join request.
#[unsafe(no_mangle)]
pub extern "C" fn pothatch_serial_end_request(
    serial: &mut [u8],
    store: &[u8],
    form: u64,
    reading: u64,
    out: &mut [u8],
) -> u32
    ensures { EndsRequest serial.old store.now form reading out.old result serial.new
        out.new }
{
    pothatch::serial::pothatch_serial_end_request(serial, store, form, reading, out)
}

// Reads what arrived as a configuration.
#[unsafe(no_mangle)]
pub extern "C" fn pothatch_serial_end_configuration(
    serial: &mut [u8],
    store: &[u8],
    form: u64,
    reading: u64,
    out: &mut [u8],
) -> u32
    ensures { EndsConfiguration serial.old store.now form reading out.old result serial.new
        out.new }
{
    pothatch::serial::pothatch_serial_end_configuration(serial, store, form, reading, out)
}
