// The node of an image, judged field by field.
ghost use Rattle.std.specs.Prelude.{◌&&◌, ◌≡◌, length, drop};
ghost use Rattle.image.specs.Part.{is_image};
ghost use Rattle.node.specs.Node.{is_border};
ghost use Rattle.node.specs.Range.{draft_valid, published_valid, version_valid, others_valid, valid};
ghost use Rattle.node_key_sets.specs.Sets.{valid_as};
ghost use Rattle.node_image.specs.Node.{sets_part, node_image};
ghost use Rattle.node_image.specs.NodeLemmas.{node_at};
ghost use Rattle.node_image.specs.Version.{version_part};
ghost use Rattle.protocol_version.specs.Version.{allows_additional_info};

use crate::list::is_blacklist_in;
use crate::sets::sets_valid_in;
use node_image::{attempt_at, held_address_at, held_octets_at, is_node, version_at};
use node_parameters::error_reports::error_reports_valid;
use object_image::{bool_at, error_reports_at};
use protocol_version::Version;

// Whether a node of the draft has nothing that belongs to RFC 9031.
fn draft_valid(s: &[u8]) -> bool
    requires { length s.now ≡ 878 }
    ensures { result ≡ draft_valid (node_at s.now) }
{
    if bool_at(s, 602) {
        return false;
    }
    if bool_at(s, 858) {
        return false;
    }
    held_octets_at(s, 583).valid()
}

// Whether a node of RFC 9031 has no prefix, and a blacklist within its limits if it has one.
fn published_valid(s: &[u8]) -> bool
    requires { length s.now ≡ 878 }
    ensures { result ≡ published_valid (node_at s.now) }
{
    if bool_at(s, 583) {
        return false;
    }
    if !bool_at(s, 602) {
        return true;
    }
    let count = u64::from(s[603]);
    let len = usize::from(s[604]);
    if 253 < len {
        return false;
    }
    is_blacklist_in(&s[605..605 + len], count)
}

// Whether what the node has besides belongs to its version.
fn version_valid(s: &[u8]) -> bool
    requires { length s.now ≡ 878 }
    ensures { result ≡ version_valid (node_at s.now) }
{
    let version = version_at(s, 601);
    if !error_reports_valid(version, error_reports_at(s, 867)) {
        return false;
    }
    match version {
        Version::Draft => draft_valid(s),
        Version::Published => published_valid(s),
    }
}

// Whether role, JRC address, network identifier and what belongs to the version are within their limits.
fn others_valid(s: &[u8]) -> bool
    requires { length s.now ≡ 878 }
    ensures { result ≡ others_valid (node_at s.now) }
{
    if 1 < s[2] {
        return false;
    }
    if !held_octets_at(s, 547).valid_jrc() {
        return false;
    }
    if !held_octets_at(s, 565).valid() {
        return false;
    }
    version_valid(s)
}

// Whether the two key sets may stand together at the node.
fn sets_valid(s: &[u8]) -> bool
    requires { length s.now ≡ 878 }
    ensures { result ≡ valid_as (allows_additional_info (version_part.get (drop 601 s.now)))
        (is_border (node_at s.now)) (sets_part.get (drop 29 s.now)) }
{
    let border = s[2] == 1;
    let allowed = version_at(s, 601).allows_additional_info();
    sets_valid_in(s, 29, border, allowed)
}

// Whether the bytes are the image of a node, and that node may be handed in.
pub fn is_valid_node(s: &[u8]) -> bool
    ensures { result ≡ (is_image node_image s.now && valid (node_image.get s.now)) }
{
    if !is_node(s) {
        return false;
    }
    if !sets_valid(s) {
        return false;
    }
    let attempt = attempt_at(s, 3);
    if !attempt.valid() {
        return false;
    }
    if !held_address_at(s, 527).valid(attempt.clock) {
        return false;
    }
    others_valid(s)
}
