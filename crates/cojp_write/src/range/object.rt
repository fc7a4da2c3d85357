// The objects' limits.
ghost use Rattle.std.specs.Prelude.{◌&&◌, ◌≡◌};
ghost use Rattle.cojp.specs.Lists.{strings_in, error_reports_in, at_least_one};
ghost use Rattle.protocol_version.specs.Version.{by_version};
ghost use Rattle.cojp.specs.Writing.{
  missing,
  list_in_range,
  keys_without_additional_info,
  of_version,
  request_in_range,
  configuration_in_range,
};

use crate::range::parameter::{
    address_in_range, blacklist_in_range, jrc_in_range, keys_in_range, keys_plain, octets_in_range,
    unsupported_in_range,
};
use crate::range::report::is_missing;
use cojp::{Configuration, JoinRequest, ListParameter};
use protocol_version::Version;

// The draft has no reports of what a node could not act on.
fn reports_in_range(version: Version, p: ListParameter) -> bool
    ensures { result ≡ by_version version (missing p.disposition) (list_in_range (at_least_one error_reports_in) p) }
{
    match version {
        Version::Draft => is_missing(p.disposition),
        Version::Published => unsupported_in_range(p),
    }
}

#[tactic(auto, unfolding(cojp::specs::Writing::request_in_range))]
pub(crate) fn request_in_range(version: Version, q: JoinRequest) -> bool
    ensures { result ≡ request_in_range version q }
{
    q.role <= 1 && octets_in_range(q.network) && reports_in_range(version, q.unsupported)
}

// The draft's keys have no additional information, and it has no blacklist and no join rate.
fn draft_form(c: Configuration) -> bool
    ensures { result ≡ (keys_without_additional_info c.keys && missing c.blacklist.disposition && missing c.rate.disposition) }
{
    keys_plain(c.keys) && is_missing(c.blacklist.disposition) && is_missing(c.rate.disposition)
}

// The published form has no network identifier and no prefix in a configuration.
fn published_form(c: Configuration) -> bool
    ensures { result ≡ (missing c.network.disposition && missing c.prefix.disposition && list_in_range strings_in c.blacklist) }
{
    is_missing(c.network.disposition)
        && is_missing(c.prefix.disposition)
        && blacklist_in_range(c.blacklist)
}

#[tactic(auto, unfolding(cojp::specs::Writing::of_version))]
fn of_form(version: Version, c: Configuration) -> bool
    ensures { result ≡ of_version version c }
{
    match version {
        Version::Draft => draft_form(c),
        Version::Published => published_form(c),
    }
}

#[tactic(auto, unfolding(cojp::specs::Writing::configuration_in_range))]
pub fn configuration_in_range(version: Version, c: Configuration) -> bool
    ensures { result ≡ configuration_in_range version c }
{
    keys_in_range(c.keys)
        && address_in_range(c.address)
        && jrc_in_range(c.jrc)
        && octets_in_range(c.network)
        && octets_in_range(c.prefix)
        && of_form(version, c)
}
