// The walker over a recorded trace: the lent trace and a place in it (document 01's form). The work is done by `crate::walk::step`, which
// takes the slice and the place.
ghost use Rattle.std.specs.Prelude.{◌≡◌};
ghost use Rattle.trace.specs.Replay as whole;
ghost use Rattle.trace.specs.Step as steps;

use crate::state::{Progress, ReplayResult, State, StepResult, nothing_yet, reached};
use crate::walk::step;

#[derive(Clone, Copy)]
pub struct Walker<'a> {
    pub trace: &'a [u8],
    pub at: usize,
}

impl<'a> Walker<'a> {
    // The record at the walker's place.
    pub fn step(self, state: State) -> StepResult
        ensures { result ≡ steps.step self.entry.trace.now self.entry.at state }
    {
        step(self.trace, self.at, state)
    }
}

// The record at a place, read by a walker. Its callers hold no walker.
pub fn step_from(trace: &[u8], at: usize, state: State) -> StepResult
    ensures { result ≡ steps.step trace.now at state }
{
    Walker { trace, at }.step(state)
}

// The whole trace, from no node: the walk goes on until it is complete or stops.
fn walk(trace: &[u8]) -> StepResult
    ensures { result ≡ steps.played trace.now }
{
    let mut last = reached(Progress::Walked, 0, nothing_yet());
    while let Progress::Walked = last.progress {
        last = step_from(trace, last.next, last.state);
    }
    last
}

// A recorded trace replayed: exactly the node that the calls of its records give, and the report of what they answered.
pub fn replay(trace: &[u8]) -> ReplayResult
    ensures { result ≡ whole.replay trace.now }
{
    crate::replay_exact_law();
    walk(trace).replayed()
}
