// Configurations are written to a lent slice: RANGE and ROOM are tested before any byte is written.
// Configurations.
mod address;
mod info;
mod item;
mod key_set;
mod rate;
mod size;

ghost use Rattle.std.specs.Prelude.{true, ◌++◌, ◌≡◌, ◌+◌, ◌≤◌, length};
ghost use Rattle.byte_io.specs.Write.{Did, Wrote};
ghost use Rattle.cbor.specs.Encode.{shortest, encode, encode_pairs};
ghost use Rattle.cbor.specs.Item.{map_item};
ghost use Rattle.cojp.specs.Writing.{fits, rate_pairs, configuration_pairs, configuration_plan};
ghost use Rattle.protocol_version.specs.declared.Version.TheVariants.{Draft};
ghost use Rattle.cojp_write.specs.configuration.Room.{
  StringsFit,
  strings_length,
  strings_bytes,
  pairs_length,
  additions_bytes,
  front_pairs,
  front_length,
  configuration_count,
  configuration_bytes,
  configuration_length,
};
ghost use Rattle.cojp_write.specs.octets.Fits.{ConfigurationFits};
ghost use Rattle.cojp_write.specs.octets.Plan.{list_bytes, list_fits};
ghost use Rattle.cojp_write.specs.octets.Size.{Sizes, PairsSize};

use crate::configuration::address::{address_size, put_address};
pub(crate) use crate::configuration::item::put_bytes;
use crate::configuration::key_set::{keys_size, put_keys};
use crate::configuration::rate::{put_rate, rate_size};
use crate::octets::{Size, list_size, octets_size, plus, put_head, put_list, put_octets};
use crate::range::object::configuration_in_range;
use cojp::{Configuration, ListParameter, OctetsParameter, RateParameter};
use protocol_version::Version;
use refusal::Refusal;

// Keys, address and byte strings.
fn front_size(c: Configuration) -> Size
    ensures { PairsSize (front_pairs c) 5 391 result }
{
    let size = keys_size(c.keys);
    let size = plus(size, address_size(c.address));
    let size = plus(size, octets_size(4, c.jrc));
    let size = plus(size, octets_size(5, c.network));
    plus(size, octets_size(6, c.prefix))
}

fn configuration_size(c: Configuration) -> Size
    ensures { Sizes (configuration_count c) (configuration_bytes c) 7 672 result }
{
    let size = front_size(c);
    let size = plus(size, list_size(6, c.blacklist));
    plus(size, rate_size(c.rate))
}

// The byte strings: JRC address, network identifier, prefix.
fn put_strings(
    dst: &mut [u8],
    jrc: OctetsParameter,
    network: OctetsParameter,
    prefix: OctetsParameter,
) -> usize
    requires { StringsFit jrc network prefix × (strings_length jrc network prefix ≤ length dst.old) }
    ensures { Wrote (strings_bytes jrc network prefix) dst.old result dst.new }
{
    let n1 = put_octets(dst, 4, jrc);
    let n2 = n1 + put_octets(&mut dst[n1..], 5, network);
    n2 + put_octets(&mut dst[n2..], 6, prefix)
}

// What the published form adds: blacklist, join rate.
fn put_additions(dst: &mut [u8], blacklist: ListParameter, rate: RateParameter) -> usize
    requires { (list_fits blacklist ≡ true) × (length (list_bytes 6 blacklist) + pairs_length (rate_pairs rate) ≤ length dst.old) }
    ensures { Wrote (additions_bytes blacklist rate) dst.old result dst.new }
{
    let n = put_list(dst, 6, blacklist);
    n + put_rate(&mut dst[n..], rate)
}

// The map's head, of `members` pairs, and what both forms have: each parameter in the part after those before it.
fn put_front(dst: &mut [u8], c: Configuration, members: u64) -> usize
    requires { StringsFit c.jrc c.network c.prefix × (front_length c members ≤ length dst.old) }
    ensures { Wrote (shortest 5 members ++ encode_pairs (front_pairs c)) dst.old result dst.new }
{
    let n1 = put_head(dst, 5, members);
    let n2 = n1 + put_keys(&mut dst[n1..], c.keys);
    let n3 = n2 + put_address(&mut dst[n2..], c.address);
    n3 + put_strings(&mut dst[n3..], c.jrc, c.network, c.prefix)
}

// The map, with `members` pairs.
fn put_configuration(dst: &mut [u8], c: Configuration, members: u64) -> usize
    requires { ConfigurationFits c × (configuration_length c members ≤ length dst.old) }
    ensures { Wrote (shortest 5 members ++ configuration_bytes c) dst.old result dst.new }
{
    let n = put_front(dst, c, members);
    n + put_additions(&mut dst[n..], c.blacklist, c.rate)
}

// What is in range: RANGE over 256 bytes, ROOM, or the length written.
fn emit_configuration(dst: &mut [u8], c: Configuration) -> Result<usize, Refusal>
    requires { ConfigurationFits c }
    ensures { Did (fits (encode (map_item (configuration_pairs c)))) dst.old result dst.new }
{
    cbor::head_laws();
    cojp_list::laws();
    let size = configuration_size(c);
    let whole = 1 + size.bytes;
    if 256 < whole {
        return Err(Refusal::Range);
    }
    if dst.len() < whole {
        return Err(Refusal::Room);
    }
    Ok(put_configuration(dst, c, size.members as u64))
}

// Writes a configuration in a form: RANGE, ROOM, or the length written.
pub fn write_configuration(
    dst: &mut [u8],
    c: Configuration,
    version: Version,
) -> Result<usize, Refusal>
    ensures { Did (configuration_plan version c) dst.old result dst.new }
{
    if !configuration_in_range(version, c) {
        return Err(Refusal::Range);
    }
    emit_configuration(dst, c)
}
