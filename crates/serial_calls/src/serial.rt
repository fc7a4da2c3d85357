// The image of an arrival.
ghost use Rattle.std.specs.Prelude.{◌≡◌, length};
ghost use Rattle.image.specs.Part.{is_image};
ghost use Rattle.serial_calls.specs.Serial.{serial_image};

use cojp_serial::SerialState;
use image::{is_headed, number_at, put_head, put_number};
use object_image::{bool_at, is_bool, put_bool};

const KIND: u8 = b'S';

const SIZE: usize = 6;

// Whether the bytes are an arrival's image.
pub fn is_serial(s: &[u8]) -> bool
    ensures { result ≡ is_image serial_image s.now }
{
    is_headed(s, SIZE, KIND) && is_bool(s, 4) && is_bool(s, 5)
}

// The arrival in an image.
pub fn serial_in(s: &[u8]) -> SerialState
    requires { length s.now ≡ 6 }
    ensures { result ≡ serial_image.get s.now }
{
    SerialState {
        arrived: number_at(s, 2, 2) as usize,
        overrun: bool_at(s, 4),
        ended: bool_at(s, 5),
    }
}

// Stores an arrival.
pub fn put_serial(dst: &mut [u8], arrival: SerialState)
    requires { length dst.old ≡ 6 }
    ensures { dst.new ≡ serial_image.put arrival }
{
    put_head(dst, KIND);
    put_number(&mut dst[2..], 2, arrival.arrived as u64);
    put_bool(&mut dst[4..], arrival.overrun);
    put_bool(&mut dst[5..], arrival.ended);
}
