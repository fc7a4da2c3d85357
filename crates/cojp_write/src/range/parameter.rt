// The parameters' limits.
ghost use Rattle.std.specs.Prelude.{◌≡◌};
ghost use Rattle.cojp.specs.Lists.{strings_in, error_reports_in, at_least_one};
ghost use Rattle.cojp.specs.Writing.{
  octets_in_range,
  jrc_in_range,
  address_in_range,
  keys_in_range,
  keys_without_additional_info,
  list_in_range,
};

use cojp::{AddressParameter, KeysParameter, ListParameter, OctetsParameter, is_taken};
use cojp_list::{is_blacklist, is_unsupported};
use short_address::is_address;

// An identifier or a prefix has at most 16 bytes.
pub(crate) fn octets_in_range(p: OctetsParameter) -> bool
    ensures { result ≡ octets_in_range p }
{
    !is_taken(p.disposition) || p.value.len <= 16
}

// A JRC address has 16 bytes.
pub(crate) fn jrc_in_range(p: OctetsParameter) -> bool
    ensures { result ≡ jrc_in_range p }
{
    !is_taken(p.disposition) || p.value.len == 16
}

pub(crate) fn address_in_range(p: AddressParameter) -> bool
    ensures { result ≡ address_in_range p }
{
    !is_taken(p.disposition) || is_address(p.value.bytes)
}

pub(crate) fn keys_in_range(p: KeysParameter) -> bool
    ensures { result ≡ keys_in_range p }
{
    !is_taken(p.disposition) || p.value.valid()
}

// The draft's keys have no additional information.
pub(crate) fn keys_plain(p: KeysParameter) -> bool
    ensures { result ≡ keys_without_additional_info p }
{
    !is_taken(p.disposition) || p.value.has_no_additional_info()
}

// A blacklist is an array of byte strings.
pub(crate) fn blacklist_in_range(p: ListParameter) -> bool
    ensures { result ≡ list_in_range strings_in p }
{
    !is_taken(p.disposition) || is_blacklist(p.value)
}

// An unsupported configuration is an array of reports.
pub(crate) fn unsupported_in_range(p: ListParameter) -> bool
    ensures { result ≡ list_in_range (at_least_one error_reports_in) p }
{
    !is_taken(p.disposition) || is_unsupported(p.value)
}
