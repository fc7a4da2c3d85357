// A recorded trace replayed, record by record (document 02, request 4): the calls that its records make, and the report.
#![tactic(auto)]

mod count;
mod done;
pub mod state;
pub mod walk;
pub mod walker;

ghost use Rattle.trace.specs.ReplayExact.{ReplayExact};
ghost use Rattle.trace.specs.Contiguous.{RecordsContiguous};
ghost use Rattle.trace.specs.ReplayExample.{ReplayExample};
ghost use Rattle.trace.specs.Progress.{StepsSay};

pub use state::{Progress, ReplayResult, ReplayStatistics, State, StepResult};
pub(crate) use state::{nothing_yet, reached};
pub use walk::step;

// A walk record by record gives exactly the node that the calls give, and a report of exact numbers.
pub fn replay_exact_law()
    ensures { ReplayExact }
{
    refusal::number_range_law();
    node_laws::waiting_law();
}

// A trace of six records, one of each kind, is replayed, and a seventh record stops the walk.
pub fn replay_example()
    ensures { ReplayExample }
{
    replay_exact_law();
}

// A trace's records stand one behind the other from the trace's start on, each of the kind that its first byte names, up to its end or to
// the first that stops the walk.
pub fn records_contiguous_law()
    ensures { RecordsContiguous }
{
    trace_record::kind_law();
}

// A step is complete exactly at the trace's end or past it, leaves place and state unless it walked a record, and then goes on behind that.
pub fn progress_law()
    ensures { StepsSay }
{
    trace_record::kind_law();
}
