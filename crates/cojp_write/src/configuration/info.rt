// Additional information of a key (RFC 9031), a byte string where there is any.
ghost use Rattle.std.specs.Prelude.{◌≤◌, length};
ghost use Rattle.byte_io.specs.Write.{Wrote};
ghost use Rattle.cbor.specs.Encode.{encodes};
ghost use Rattle.cojp.specs.Writing.{additional_info_items};
ghost use Rattle.cojp_write.specs.octets.Size.{ItemsSize};

use crate::configuration::item::put_bytes;
use crate::octets::{Size, no_size};
use link_key::{AdditionalInfo, additional_info_bytes};

pub(crate) fn info_size(info: AdditionalInfo) -> Size
    ensures { ItemsSize (additional_info_items info) 1 9 result }
{
    cbor::head_laws();
    let spread = additional_info_bytes(info);
    let len = spread.len;
    if len == 0 {
        return no_size();
    }
    Size {
        members: 1,
        bytes: 1 + len,
    }
}

pub(crate) fn put_info(dst: &mut [u8], info: AdditionalInfo) -> usize
    requires { length (encodes (additional_info_items info)) ≤ length dst.old }
    ensures { Wrote (encodes (additional_info_items info)) dst.old result dst.new }
{
    let spread = additional_info_bytes(info);
    if spread.len == 0 {
        return 0;
    }
    put_bytes(dst, &spread.bytes[..spread.len])
}
