// Payloads that come over a serial cable in parts, for C:
// what has come is an image in lent bytes, the payload's bytes stand in a lent store.
#![tactic(auto)]

mod ends;
mod parts;
mod serial;

ghost use Rattle.serial_calls.specs.Laws.{SerialImages, SerialRefusals};

pub use ends::{serial_end_configuration, serial_end_request};
pub use parts::{serial_part, serial_reset};
pub use serial::{is_serial, put_serial, serial_in};

// What was stored is loaded as it was, and there is one image for each value.
pub fn laws()
    ensures { SerialImages }
{
    object_image::laws();
}

// What a refused call leaves.
pub fn refusals_keep_law()
    ensures { SerialRefusals }
{
    object_image::laws();
}
