// The parameters of both forms that may come once: key set and short address.
ghost use Rattle.std.specs.Prelude.{◌≡◌, drop, IfOk};
ghost use Rattle.cojp.specs.Address.{no_address_parameter, address_read};
ghost use Rattle.cojp.specs.Bytes.{value_view, after_value, EndsAt};
ghost use Rattle.cojp.specs.KeySet.{no_keys_parameter, keys_read_as};
ghost use Rattle.cojp.specs.Reading.{by_version_of};
ghost use Rattle.protocol_version.specs.Version.{allows_additional_info};
ghost use Rattle.cojp_map.specs.Pairs.{seen, once};
ghost use Rattle.cojp_read.specs.Pair.{reading_in};

use cojp::{AddressParameter, Disposition, KeysParameter, no_address, read_address};
use cojp_key_set::read_keys;
use cojp_map::{is_seen, item_end};
use protocol_version::Version;
use refusal::Refusal;

// Takes the key set at a place: TWICE where its label came before. In the published form nothing of a bad one is taken, and the bytes go on
// after it. The keys are stored as they were read: a set that is handed on is copied at each step, a tenth of a short read.
pub(crate) fn take_keys(
    keys: &mut KeysParameter,
    s: &[u8],
    at: usize,
    version: Version,
) -> Result<usize, Refusal>
    ensures keys { reading_in (λ n. keys.new) result ≡ once (seen keys.old.disposition) (by_version_of version
        (no_keys_parameter Disposition.Discarded) (keys_read_as (allows_additional_info version) (value_view (drop at s.now)))) }
    ensures rest { IfOk result (λ n. EndsAt s.now n (after_value (drop at s.now))) }
{
    if is_seen(keys.disposition) {
        return Err(Refusal::Twice);
    }
    let read = read_keys(s, at, version.allows_additional_info());
    *keys = read.parameter;
    match (read.verdict, version) {
        (Ok(()), _) => Ok(read.next),
        (Err(why), Version::Draft) => Err(why),
        (Err(_), Version::Published) => {
            keys.disposition = Disposition::Discarded;
            Ok(item_end(s, at))
        }
    }
}

// Takes the short address at a place: TWICE where its label came before. In the published form nothing of a bad one is taken, and the bytes
// go on after it.
pub(crate) fn take_address(
    address: &mut AddressParameter,
    s: &[u8],
    at: usize,
    version: Version,
) -> Result<usize, Refusal>
    ensures address { reading_in (λ n. address.new) result ≡ once (seen address.old.disposition) (by_version_of version
        (no_address_parameter Disposition.Discarded) (address_read (value_view (drop at s.now)))) }
    ensures rest { IfOk result (λ n. EndsAt s.now n (after_value (drop at s.now))) }
{
    if is_seen(address.disposition) {
        return Err(Refusal::Twice);
    }
    match (read_address(s, at), version) {
        (Ok((read, next)), _) => {
            *address = read.repacked();
            Ok(next)
        }
        (Err(why), Version::Draft) => Err(why),
        (Err(_), Version::Published) => {
            *address = no_address(Disposition::Discarded);
            Ok(item_end(s, at))
        }
    }
}
