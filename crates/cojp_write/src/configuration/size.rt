// How much there is to write, before any of it is written.
ghost use Rattle.cojp.specs.Writing.{lease_items};
ghost use Rattle.cojp_write.specs.octets.Size.{ItemsSize};

use crate::octets::{Size, no_size};
use cbor::write::head_len;

// A number, where there is one.
pub(crate) fn optional_size(given: bool, number: u64) -> Size
    ensures { ItemsSize (lease_items given number) 1 9 result }
{
    cbor::head_laws();
    if given {
        return Size {
            members: 1,
            bytes: head_len(number),
        };
    }
    no_size()
}
