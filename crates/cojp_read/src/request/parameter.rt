// The parameters of a join request, and the labels that name them.
ghost use Rattle.std.specs.Prelude.{◌≡◌};
ghost use Rattle.cojp_read.specs.request.Requests.{request_parameter_of};

use protocol_version::Version;

// What a label names.
#[derive(Clone, Copy)]
pub(crate) enum RequestParameter {
    Role,
    Network,
    Unsupported,
    Unknown,
}

// What a label names in a form: 1 and 5 in both, 8 in that of RFC 9031.
#[tactic(auto, unfolding(crate::specs::request::Requests::request_parameter_of))]
pub(crate) fn request_parameter_of(version: Version, label: u64) -> RequestParameter
    ensures { result ≡ request_parameter_of version label }
{
    match label {
        1 => RequestParameter::Role,
        5 => RequestParameter::Network,
        8 => match version {
            Version::Draft => RequestParameter::Unknown,
            Version::Published => RequestParameter::Unsupported,
        },
        _ => RequestParameter::Unknown,
    }
}
