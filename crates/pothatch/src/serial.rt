// Payloads that come in parts.
ghost use Rattle.serial_calls.specs.Ends.{EndsRequest, EndsConfiguration};
ghost use Rattle.serial_calls.specs.Parts.{Resets, Parts};

// Begins anew, whatever stood in the image.
pub fn pothatch_serial_reset(serial: &mut [u8]) -> u32
    ensures { Resets serial.old result serial.new }
{
    serial_calls::serial_reset(serial)
}

// Takes the bytes of a part into the store.
pub fn pothatch_serial_part(serial: &mut [u8], store: &mut [u8], part: &[u8]) -> u32
    ensures { Parts serial.old store.old part.now result serial.new store.new }
{
    serial_calls::serial_part(serial, store, part)
}

// Reads what arrived as a join request.
pub fn pothatch_serial_end_request(
    serial: &mut [u8],
    store: &[u8],
    form: u64,
    reading: u64,
    out: &mut [u8],
) -> u32
    ensures { EndsRequest serial.old store.now form reading out.old result serial.new
        out.new }
{
    serial_calls::serial_end_request(serial, store, form, reading, out)
}

// Reads what arrived as a configuration.
pub fn pothatch_serial_end_configuration(
    serial: &mut [u8],
    store: &[u8],
    form: u64,
    reading: u64,
    out: &mut [u8],
) -> u32
    ensures { EndsConfiguration serial.old store.now form reading out.old result serial.new
        out.new }
{
    serial_calls::serial_end_configuration(serial, store, form, reading, out)
}
