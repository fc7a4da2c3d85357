// Join rates (RFC 9031).
ghost use Rattle.std.specs.Prelude.{◌≤◌, length};
ghost use Rattle.byte_io.specs.Write.{Wrote};
ghost use Rattle.cbor.specs.Encode.{encode_pairs};
ghost use Rattle.cojp.specs.Writing.{rate_pairs};
ghost use Rattle.cojp_write.specs.octets.Size.{PairsSize};

use crate::configuration::item::put_labelled;
use crate::octets::{Size, no_size};
use cbor::write::head_len;
use cojp::{RateParameter, is_taken};

pub(crate) fn rate_size(p: RateParameter) -> Size
    ensures { PairsSize (rate_pairs p) 1 10 result }
{
    cbor::head_laws();
    if is_taken(p.disposition) {
        return Size {
            members: 1,
            bytes: 1 + head_len(p.value),
        };
    }
    no_size()
}

pub(crate) fn put_rate(dst: &mut [u8], p: RateParameter) -> usize
    requires { length (encode_pairs (rate_pairs p)) ≤ length dst.old }
    ensures { Wrote (encode_pairs (rate_pairs p)) dst.old result dst.new }
{
    if is_taken(p.disposition) {
        return put_labelled(dst, 7, 0, p.value);
    }
    0
}
