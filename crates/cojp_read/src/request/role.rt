// The role of a join request.
ghost use Rattle.std.specs.Prelude.{drop, IfOk};
ghost use Rattle.cojp.specs.Bytes.{value_view, after_value, EndsAt};
ghost use Rattle.cojp.specs.Request.{role_judged};
ghost use Rattle.cojp_read.specs.request.Requests.{BadRole, RoleSpec};

use cbor::{Value, value_at};
use cojp::ErrorReports;
use cojp_map::item_end;
use protocol_version::Version;
use refusal::Refusal;

// The role, the reports with the one about it, and where the bytes go on.
#[derive(Clone, Copy)]
pub(crate) struct RoleRead {
    pub role: u8,
    pub errors: ErrorReports,
    pub next: usize,
}

// A bad role at a place: the draft refuses the request; in the published form the role is 0 and is reported.
fn bad_role(
    s: &[u8],
    at: usize,
    version: Version,
    why: Refusal,
    errors: ErrorReports,
    code: u8,
) -> Result<RoleRead, Refusal>
    ensures bad_role { BadRole version why errors code result }
    ensures rest { IfOk result (λ r. EndsAt s.now r.next (after_value (drop at s.now))) }
{
    match version {
        Version::Draft => Err(why),
        Version::Published => Ok(RoleRead {
            role: 0,
            errors: errors.add(code, 1),
            next: item_end(s, at),
        }),
    }
}

// The role at a place: TWICE where one came before.
pub(crate) fn role_once(
    s: &[u8],
    at: usize,
    version: Version,
    named: bool,
    errors: ErrorReports,
) -> Result<RoleRead, Refusal>
    ensures role_spec { RoleSpec version named errors (role_judged (value_view (drop at s.now))) result }
    ensures rest { IfOk result (λ r. EndsAt s.now r.next (after_value (drop at s.now))) }
{
    if named {
        return Err(Refusal::Twice);
    }
    match value_at(s, at) {
        Value::Number { number, next } if number <= 1 => Ok(RoleRead {
            role: number as u8,
            errors,
            next,
        }),
        Value::Number { .. } => bad_role(s, at, version, Refusal::Role, errors, 0),
        _ => bad_role(s, at, version, Refusal::Type, errors, 1),
    }
}
