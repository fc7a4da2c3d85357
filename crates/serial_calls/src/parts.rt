// A reset, and a part of a payload.
ghost use Rattle.serial_calls.specs.Parts.{Resets, Parts};

use crate::serial::{is_serial, put_serial, serial_in};
use cojp_serial::{part, reset};
use image::{RANGE, number_of};

// Begins anew, whatever stood in the image.
pub fn serial_reset(serial: &mut [u8]) -> u32
    ensures { Resets serial.old result serial.new }
{
    if serial.len() != 6 {
        return RANGE;
    }
    put_serial(serial, reset());
    0
}

// Takes the bytes of a part into the store; an overrun is marked in the image, though the call is refused.
pub fn serial_part(serial: &mut [u8], store: &mut [u8], sent: &[u8]) -> u32
    ensures { Parts serial.old store.old sent.now result serial.new store.new }
{
    if !is_serial(serial) {
        return RANGE;
    }
    let answer = part(serial_in(serial), store, sent);
    put_serial(serial, answer.state);
    number_of(answer.verdict)
}
