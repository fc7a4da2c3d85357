// The image of a node.
ghost use Rattle.std.specs.Prelude.{◌≡◌, ◌≤◌, length, drop};
ghost use Rattle.byte_io.specs.Write.{Wrote};
ghost use Rattle.image.specs.Part.{both, is_image};
ghost use Rattle.node_image.specs.Attempt.{attempt_part};
ghost use Rattle.node_image.specs.Node.{sets_part, form_fields, held_fields, held_of, node_image};

use crate::attempt::{attempt_at, is_attempt, put_attempt};
use crate::held::{
    held_address_at, held_list_at, held_octets_at, held_rate_at, is_held_address, put_held_address,
    put_held_list, put_held_octets, put_held_rate,
};
use crate::version::{is_version, put_version, version_at};
use cojp::ErrorReports;
use image::{is_headed, put_byte, put_head};
use key_image::{counted_set_at, is_counted_set, put_counted_set};
use node::Node;
use node_key_sets::KeySets;
use node_parameters::{HeldList, HeldRate};
use object_image::{error_reports_at, is_bool, put_error_reports};
use protocol_version::Version;

const KIND: u8 = b'N';

const SIZE: usize = 878;

// Whether the bytes of join attempt and key sets are good.
fn is_state(s: &[u8]) -> bool
    requires { length s.now ≡ 878 }
    ensures { result ≡ (both attempt_part sets_part).good (drop 3 s.now) }
{
    if is_attempt(s, 3) {
        if is_counted_set(s, 29) {
            return is_counted_set(s, 278);
        }
    }
    false
}

// Whether the bytes of form, blacklist and join rate are good; those of the faults are.
fn is_form(s: &[u8]) -> bool
    requires { length s.now ≡ 878 }
    ensures { result ≡ form_fields.good (drop 601 s.now) }
{
    if is_version(s, 601) {
        if is_bool(s, 602) {
            return is_bool(s, 858);
        }
    }
    false
}

// Whether the bytes of what a node holds besides are good.
fn is_holding(s: &[u8]) -> bool
    requires { length s.now ≡ 878 }
    ensures { result ≡ held_fields.good (drop 527 s.now) }
{
    if is_held_address(s, 527) {
        if is_bool(s, 547) {
            if is_bool(s, 565) {
                if is_bool(s, 583) {
                    return is_form(s);
                }
            }
        }
    }
    false
}

// Whether the bytes are a node's image.
pub fn is_node(s: &[u8]) -> bool
    ensures { result ≡ is_image node_image s.now }
{
    if is_headed(s, SIZE, KIND) {
        if is_state(s) {
            return is_holding(s);
        }
    }
    false
}

fn sets_at(s: &[u8]) -> KeySets
    requires { length s.now ≡ 878 }
    ensures { result ≡ sets_part.get (drop 29 s.now) }
{
    KeySets {
        active: counted_set_at(s, 29),
        pending: counted_set_at(s, 278),
    }
}

// The node in an image.
pub fn node_in(s: &[u8]) -> Node
    requires { length s.now ≡ 878 }
    ensures { result ≡ node_image.get s.now }
{
    Node {
        role: s[2],
        attempt: attempt_at(s, 3),
        sets: sets_at(s),
        address: held_address_at(s, 527),
        jrc: held_octets_at(s, 547),
        network: held_octets_at(s, 565),
        prefix: held_octets_at(s, 583),
        version: version_at(s, 601),
        blacklist: held_list_at(s, 602),
        rate: held_rate_at(s, 858),
        errors: error_reports_at(s, 867),
    }
}

fn put_sets(dst: &mut [u8], sets: KeySets)
    requires { 498 ≤ length dst.old }
    ensures { Wrote (sets_part.put sets) dst.old 498 dst.new }
{
    put_counted_set(dst, sets.active);
    put_counted_set(&mut dst[249..], sets.pending);
}

// Writes form, blacklist, join rate and faults.
fn put_form(
    dst: &mut [u8],
    version: Version,
    blacklist: HeldList,
    rate: HeldRate,
    faults: ErrorReports,
)
    requires { 277 ≤ length dst.old }
    ensures { Wrote (form_fields.put (version, (blacklist, (rate, faults)))) dst.old 277 dst.new }
{
    put_version(dst, version);
    put_held_list(&mut dst[1..], blacklist);
    put_held_rate(&mut dst[257..], rate);
    put_error_reports(&mut dst[266..], faults);
}

// Writes what the node holds besides join attempt and key sets.
fn put_holding(dst: &mut [u8], node: Node)
    requires { 351 ≤ length dst.old }
    ensures { Wrote (held_fields.put (held_of node)) dst.old 351 dst.new }
{
    put_held_address(dst, node.address);
    put_held_octets(&mut dst[20..], node.jrc);
    put_held_octets(&mut dst[38..], node.network);
    put_held_octets(&mut dst[56..], node.prefix);
    put_form(
        &mut dst[74..],
        node.version,
        node.blacklist,
        node.rate,
        node.errors,
    );
}

// Stores a node.
pub fn put_node(dst: &mut [u8], node: Node)
    requires { length dst.old ≡ 878 }
    ensures { dst.new ≡ node_image.put node }
{
    put_head(dst, KIND);
    put_byte(&mut dst[2..], node.role);
    put_attempt(&mut dst[3..], node.attempt);
    put_sets(&mut dst[29..], node.sets);
    put_holding(&mut dst[527..], node);
}
