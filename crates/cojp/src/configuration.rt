// Configurations, which join responses and parameter updates carry.
ghost use Rattle.std.specs.Prelude.{◌≡◌};
ghost use Rattle.cojp.specs.Configuration.{empty_configuration};

use crate::address::{AddressParameter, no_address};
use crate::disposition::Disposition;
use crate::error_report::{ErrorReports, no_error_reports};
use crate::key_set::{KeysParameter, no_key_set};
use crate::list::{ListParameter, no_list};
use crate::octets::{OctetsParameter, no_octets};
use crate::rate::{RateParameter, no_rate};
use refusal::Refusal;

// What does not belong to a form (crate::version) is absent in it. `came` has the known labels of a published payload in their order, each
// as the report that it would get; `unknown` labels were passed over.
#[derive(Clone, Copy)]
pub struct Configuration {
    pub keys: KeysParameter,
    pub address: AddressParameter,
    pub jrc: OctetsParameter,
    pub network: OctetsParameter,
    pub prefix: OctetsParameter,
    pub blacklist: ListParameter,
    pub rate: RateParameter,
    pub labels: ErrorReports,
    pub unknown: u64,
}

// Beside a refusal stands the empty configuration.
// Kept: document 01 asks for the empty object beside a refusal's number, and `ReadersDemand1` (specs/Laws.antt) speaks of both.
#[derive(Clone, Copy)]
pub struct ConfigurationRead {
    pub verdict: Result<(), Refusal>,
    pub configuration: Configuration,
}

// All absent.
pub fn empty_configuration() -> Configuration
    ensures { result ≡ empty_configuration }
{
    let octets = no_octets(Disposition::Absent);
    Configuration {
        keys: no_key_set(Disposition::Absent),
        address: no_address(Disposition::Absent),
        jrc: octets,
        network: octets,
        prefix: octets,
        blacklist: no_list(Disposition::Absent),
        rate: no_rate(Disposition::Absent),
        labels: no_error_reports(),
        unknown: 0,
    }
}
