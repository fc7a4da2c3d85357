// Join requests.
ghost use Rattle.std.specs.Prelude.{◌≡◌, true, eqb};
ghost use Rattle.cojp.specs.Request.{empty_request, owing};
ghost use Rattle.protocol_version.specs.Version.{by_version};

use crate::disposition::Disposition;
use crate::error_report::{ErrorReports, no_error_reports};
use crate::list::{ListParameter, no_list};
use crate::octets::{OctetsParameter, no_octets};
use protocol_version::Version;
use refusal::Refusal;

// Role 0 is an ordinary node, 1 the border router (6LBR). In the published form `unsupported` has what a node could not act on, and
// `faults` what was bad in this request; in the draft both are empty. `unknown` labels were passed over.
#[derive(Clone, Copy)]
pub struct JoinRequest {
    pub role: u8,
    pub network: OctetsParameter,
    pub unsupported: ListParameter,
    pub errors: ErrorReports,
    pub unknown: u64,
}

// Beside a refusal stands the empty request.
// Kept: document 01 asks for the empty object beside a refusal's number, and `ReadersDemand1` (specs/Laws.antt) speaks of both.
#[derive(Clone, Copy)]
pub struct RequestRead {
    pub verdict: Result<(), Refusal>,
    pub request: JoinRequest,
}

// What was read so far, and whether a role was among it.
#[derive(Clone, Copy)]
pub struct RequestState {
    pub named: bool,
    pub request: JoinRequest,
}

// Role 0, no network identifier.
pub fn empty_request() -> JoinRequest
    ensures { result ≡ empty_request }
{
    JoinRequest {
        role: 0,
        network: no_octets(Disposition::Absent),
        unsupported: no_list(Disposition::Absent),
        errors: no_error_reports(),
        unknown: 0,
    }
}

// Whether a network identifier is due: of role 0, in the published form of every role.
fn is_due(version: Version, role: u8) -> bool
    ensures { result ≡ by_version version (eqb role 0) true }
{
    match version {
        Version::Draft => role == 0,
        Version::Published => true,
    }
}

// Whether a network identifier is due and none was taken.
#[tactic(auto, unfolding(crate::specs::Request::owing))]
pub fn is_owing(version: Version, role: u8, report: Disposition) -> bool
    ensures { result ≡ owing version role report }
{
    report != Disposition::Taken && is_due(version, role)
}
