// Join requests are written to a lent slice: RANGE, OWED and ROOM are tested before any byte is written.
// A join request's parameters, their sizes, and the map that they are.
ghost use Rattle.std.specs.Prelude.{◌++◌, ◌≤◌, length};
ghost use Rattle.byte_io.specs.Write.{Did, Wrote};
ghost use Rattle.cbor.specs.Encode.{shortest, encode, encode_pairs};
ghost use Rattle.cbor.specs.Item.{map_item};
ghost use Rattle.cojp.specs.Writing.{role_pairs, request_pairs, owing_plan, fits, request_plan};
ghost use Rattle.cojp_write.specs.octets.Fits.{RequestFits};
ghost use Rattle.cojp_write.specs.octets.Size.{Sizes, PairsSize};
ghost use Rattle.cojp_write.specs.request.Room.{request_count, request_bytes, request_length};
ghost use Rattle.protocol_version.specs.declared.Version.TheVariants.{Draft};

use crate::octets::{Size, list_size, no_size, octets_size, plus, put_head, put_list, put_octets};
use crate::range::object::request_in_range;
use cojp::{JoinRequest, is_owing};
use protocol_version::Version;
use refusal::Refusal;

// The most bytes that a payload has.
const MOST: usize = 256;

// Role 0 is omitted.
fn role_size(role: u8) -> Size
    requires { role ≤ 1 }
    ensures { PairsSize (role_pairs role) 1 2 result }
{
    cbor::head_laws();
    if role == 0 {
        return no_size();
    }
    Size {
        members: 1,
        bytes: 2,
    }
}

fn put_role(dst: &mut [u8], role: u8) -> usize
    requires { (role ≤ 1) × (length (encode_pairs (role_pairs role)) ≤ length dst.old) }
    ensures { Wrote (encode_pairs (role_pairs role)) dst.old result dst.new }
{
    cbor::head_laws();
    if role != 0 {
        let n = put_head(dst, 0, 1);
        return n + put_head(&mut dst[n..], 0, role as u64);
    }
    0
}

fn request_size(q: JoinRequest) -> Size
    requires { q.role ≤ 1 }
    ensures { Sizes (request_count q) (request_bytes q) 3 299 result }
{
    let size = role_size(q.role);
    let size = plus(size, octets_size(5, q.network));
    plus(size, list_size(8, q.unsupported))
}

// The map, with `members` pairs: each parameter in the part after those before it.
fn put_request(dst: &mut [u8], q: JoinRequest, members: u64) -> usize
    requires { RequestFits q × (request_length q members ≤ length dst.old) }
    ensures { Wrote (shortest 5 members ++ request_bytes q) dst.old result dst.new }
{
    let n1 = put_head(dst, 5, members);
    let n2 = n1 + put_role(&mut dst[n1..], q.role);
    let n3 = n2 + put_octets(&mut dst[n2..], 5, q.network);
    n3 + put_list(&mut dst[n3..], 8, q.unsupported)
}

// What is in range: RANGE over 256 bytes, OWED, ROOM, or the length written.
pub(crate) fn emit_request(dst: &mut [u8], q: JoinRequest, owed: bool) -> Result<usize, Refusal>
    requires { RequestFits q }
    ensures { Did (owing_plan owed (fits (encode (map_item (request_pairs q))))) dst.old result dst.new }
{
    cbor::head_laws();
    cojp_list::laws();
    let size = request_size(q);
    let whole = 1 + size.bytes;
    if MOST < whole {
        return Err(Refusal::Range);
    }
    if owed {
        return Err(Refusal::Owed);
    }
    if dst.len() < whole {
        return Err(Refusal::Room);
    }
    Ok(put_request(dst, q, size.members as u64))
}

// Writes a join request in a form: RANGE, OWED, ROOM, or the length written.
pub fn write_request(dst: &mut [u8], q: JoinRequest, version: Version) -> Result<usize, Refusal>
    ensures { Did (request_plan version q) dst.old result dst.new }
{
    if !request_in_range(version, q) {
        return Err(Refusal::Range);
    }
    let owed = is_owing(version, q.role, q.network.disposition);
    emit_request(dst, q, owed)
}
