// What a node could not act on, as its request of the published form has it.
ghost use Rattle.std.specs.Prelude.{drop, IfOk};
ghost use Rattle.cojp.specs.Bytes.{value_view, after_value, EndsAt};
ghost use Rattle.cojp.specs.Lists.{unsupported_taken};
ghost use Rattle.cojp_read.specs.request.Requests.{UnsupportedSpec};

use cojp::{Disposition, ErrorReports, ListParameter};
use cojp_list::{read_unsupported, taken_list};
use cojp_map::{is_seen, item_end};
use refusal::Refusal;

// The list, the reports with the one about it, and where the bytes go on.
#[derive(Clone, Copy)]
pub(crate) struct UnsupportedRead {
    pub parameter: ListParameter,
    pub errors: ErrorReports,
    pub next: usize,
}

// The list at a place: TWICE where its label came before, with what is held. A bad one is reported.
pub(crate) fn unsupported_once(
    s: &[u8],
    at: usize,
    held: Disposition,
    errors: ErrorReports,
) -> Result<UnsupportedRead, Refusal>
    ensures unsupported_spec { UnsupportedSpec held errors (unsupported_taken (value_view (drop at s.now))) result }
    ensures rest { IfOk result (λ r. EndsAt s.now r.next (after_value (drop at s.now))) }
{
    if is_seen(held) {
        return Err(Refusal::Twice);
    }
    let list = read_unsupported(s, at);
    let errors = if list.good { errors } else { errors.add(1, 8) };
    Ok(UnsupportedRead {
        parameter: taken_list(list),
        errors,
        next: item_end(s, at),
    })
}
