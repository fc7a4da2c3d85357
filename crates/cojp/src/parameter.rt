// The parameters of a configuration, and the labels that name them.
ghost use Rattle.std.specs.Prelude.{◌≡◌};
ghost use Rattle.cojp.specs.Parameter.{parameter_of, later_parameter};

use protocol_version::Version;

// What a label names; Unknown where the form knows no such label.
#[derive(Clone, Copy)]
pub enum Parameter {
    Keys,
    Address,
    Jrc,
    Network,
    Prefix,
    Blacklist,
    Rate,
    Unknown,
}

// What a label names in a form: 2 to 4 in both, 5 and 6 the network identifier and the prefix of the draft, 6 and 7 the blacklist and the
// join rate of RFC 9031.
#[tactic(auto, unfolding(crate::specs::Parameter::parameter_of))]
pub fn parameter_of(version: Version, label: u64) -> Parameter
    ensures { result ≡ parameter_of version label }
{
    match label {
        2 => Parameter::Keys,
        3 => Parameter::Address,
        4 => Parameter::Jrc,
        _ => later_parameter(version, label),
    }
}

// The labels after 4, which are not the same in the two forms.
#[tactic(auto, unfolding(crate::specs::Parameter::later_parameter))]
fn later_parameter(version: Version, label: u64) -> Parameter
    ensures { result ≡ later_parameter version label }
{
    match version {
        Version::Draft => match label {
            5 => Parameter::Network,
            6 => Parameter::Prefix,
            _ => Parameter::Unknown,
        },
        Version::Published => match label {
            6 => Parameter::Blacklist,
            7 => Parameter::Rate,
            _ => Parameter::Unknown,
        },
    }
}
