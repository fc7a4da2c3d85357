// Short addresses, with their lease.
ghost use Rattle.std.specs.Prelude.{◌≡◌, ◌+◌, ◌≤◌, length};
ghost use Rattle.byte_io.specs.Write.{Wrote};
ghost use Rattle.cbor.specs.Encode.{encode_pairs};
ghost use Rattle.cbor.specs.Item.{array, count};
ghost use Rattle.cojp.specs.Writing.{labelled, address_pairs};
ghost use Rattle.cojp_write.specs.octets.Size.{PairsSize};
ghost use Rattle.cojp_write.specs.configuration.Room.{address_items, address_length};

use crate::configuration::item::{put_bytes, put_labelled, put_optional};
use crate::configuration::size::optional_size;
use crate::octets::{Size, no_size};
use cojp::{AddressParameter, ShortAddress, is_taken};

pub(crate) fn address_size(p: AddressParameter) -> Size
    ensures { PairsSize (address_pairs p) 1 14 result }
{
    cbor::head_laws();
    if is_taken(p.disposition) {
        let lease = optional_size(p.value.leased, p.value.lease);
        return Size {
            members: 1,
            bytes: 5 + lease.bytes,
        };
    }
    no_size()
}

// An address, label and all; `members` are the bytes and perhaps a lease.
fn put_place(dst: &mut [u8], a: ShortAddress, members: u64) -> usize
    requires { (members ≡ count (address_items a)) × (address_length a members ≤ length dst.old) }
    ensures { Wrote (encode_pairs (labelled 3 (array (address_items a)))) dst.old result dst.new }
{
    let n1 = put_labelled(dst, 3, 4, members);
    let n2 = n1 + put_bytes(&mut dst[n1..], &a.bytes);
    n2 + put_optional(&mut dst[n2..], a.leased, a.lease)
}

pub(crate) fn put_address(dst: &mut [u8], p: AddressParameter) -> usize
    requires { length (encode_pairs (address_pairs p)) ≤ length dst.old }
    ensures { Wrote (encode_pairs (address_pairs p)) dst.old result dst.new }
{
    if is_taken(p.disposition) {
        let lease = optional_size(p.value.leased, p.value.lease);
        let members = 1 + lease.members;
        return put_place(dst, p.value, members as u64);
    }
    0
}
