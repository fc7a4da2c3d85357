// Link-layer key sets: one flat array of groups.
ghost use Rattle.std.specs.Prelude.{◌≡◌, ◌+◌, ◌≤◌, length};
ghost use Rattle.byte_io.specs.Write.{Wrote};
ghost use Rattle.cbor.specs.Encode.{encodes, encode_pairs};
ghost use Rattle.cbor.specs.Item.{array, count};
ghost use Rattle.cojp.specs.Writing.{labelled, keys_pairs, group_items, groups_items};
ghost use Rattle.link_key.specs.set.KeySet.{keys_of};
ghost use Rattle.cojp_write.specs.octets.Size.{ItemsSize, PairsSize};
ghost use Rattle.cojp_write.specs.configuration.Room.{key_length, set_length};

use crate::configuration::info::{info_size, put_info};
use crate::configuration::item::{put_bytes, put_labelled, put_optional};
use crate::configuration::size::optional_size;
use crate::octets::{Size, no_size, plus, put_head};
use cbor::write::head_len;
use cojp::{KeysParameter, is_taken};
use link_key::Key;
use link_key::set::KeySet;

// A group: identifier, usage unless it is 0, value, additional information where there is any.
fn key_size(k: Key) -> Size
    ensures { ItemsSize (group_items k) 4 37 result }
{
    cbor::head_laws();
    let name = head_len(k.identifier as u64);
    let usage = k.usage;
    let info = k.info;
    let used = optional_size(usage != 0, usage as u64);
    let source = info_size(info);
    let members = 2 + used.members + source.members;
    let bytes = name + used.bytes + 17 + source.bytes;
    Size { members, bytes }
}

fn groups_size(set: KeySet) -> Size
    ensures { ItemsSize (groups_items (keys_of set)) 32 296 result }
{
    let mut size = no_size();
    for key in &set.keys[..set.len()] {
        size = plus(size, key_size(*key));
    }
    size
}

pub(crate) fn keys_size(p: KeysParameter) -> Size
    ensures { PairsSize (keys_pairs p) 1 299 result }
{
    cbor::head_laws();
    if is_taken(p.disposition) {
        let groups = groups_size(p.value);
        return Size {
            members: 1,
            bytes: 1 + head_len(groups.members as u64) + groups.bytes,
        };
    }
    no_size()
}

fn put_key(dst: &mut [u8], k: Key) -> usize
    requires { key_length k ≤ length dst.old }
    ensures { Wrote (encodes (group_items k)) dst.old result dst.new }
{
    let n1 = put_head(dst, 0, k.identifier as u64);
    let n2 = n1 + put_optional(&mut dst[n1..], k.usage != 0, k.usage as u64);
    let n3 = n2 + put_bytes(&mut dst[n2..], &k.value);
    n3 + put_info(&mut dst[n3..], k.info)
}

fn put_groups(dst: &mut [u8], set: KeySet) -> usize
    requires { length (encodes (groups_items (keys_of set))) ≤ length dst.old }
    ensures { Wrote (encodes (groups_items (keys_of set))) dst.old result dst.new }
{
    let mut at = 0;
    for key in &set.keys[..set.len()] {
        at += put_key(&mut dst[at..], *key);
    }
    at
}

// A key set, label and all; `members` are those of all groups.
fn put_set(dst: &mut [u8], set: KeySet, members: u64) -> usize
    requires { (members ≡ count (groups_items (keys_of set))) × (set_length (keys_of set) members ≤ length dst.old) }
    ensures { Wrote (encode_pairs (labelled 2 (array (groups_items (keys_of set))))) dst.old result dst.new }
{
    let n = put_labelled(dst, 2, 4, members);
    n + put_groups(&mut dst[n..], set)
}

pub(crate) fn put_keys(dst: &mut [u8], p: KeysParameter) -> usize
    requires { length (encode_pairs (keys_pairs p)) ≤ length dst.old }
    ensures { Wrote (encode_pairs (keys_pairs p)) dst.old result dst.new }
{
    if is_taken(p.disposition) {
        let groups = groups_size(p.value);
        return put_set(dst, p.value, groups.members as u64);
    }
    0
}
