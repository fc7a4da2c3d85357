// What a walk over a trace has so far, and what it answers in the end.
ghost use Rattle.std.specs.Prelude.{◌≡◌, ◌<◌};
ghost use Rattle.trace.specs.Step.{afterwards, stepped, nothing_yet, is_complete, replayed_by};

use crate::count::{more_if, with_kind, with_refusal};
use crate::done::CallResult;
use node::Node;
use node_parameters::octets::absent_octets;
use protocol_version::Version;

// Records by kind, 1 to 6; refusals by number, 1 to 22; switches from pending to active; the longest wait in ms.
#[derive(Clone, Copy)]
pub struct ReplayStatistics {
    pub kinds: [u64; 6],
    pub refusals: [u64; 22],
    pub switches: u64,
    pub longest: u64,
}

// Whether there is a node, the node, the time of the accepted start that it waits from, and the report.
// Kept: `nothing_yet` and `replay_exact_law` have the empty node where none was made; an Option<Node> would copy 878 bytes at each record.
#[derive(Clone, Copy)]
pub struct State {
    pub made: bool,
    pub node: Node,
    pub started: u64,
    pub statistics: ReplayStatistics,
}

// Kept: no plainer: three ways that a step can go, none of them a refusal; `StepsSay` tells them apart.
#[derive(Clone, Copy)]
pub enum Progress {
    Complete,
    Stopped,
    Walked,
}

// One record further; where the walk is complete or stops, `next` is the place and the state is as it was.
#[derive(Clone, Copy)]
pub struct StepResult {
    pub progress: Progress,
    pub next: usize,
    pub state: State,
}

// A whole replay: whether it went to the trace's end, where it ended, whether there is a node, the node, and the report.
// Where there is none the empty node stands there.
// Kept: `ReplayExact` says that the empty node stands where there is none, and that the report stands in any case.
#[derive(Clone, Copy)]
pub struct ReplayResult {
    pub complete: bool,
    pub offset: usize,
    pub made: bool,
    pub node: Node,
    pub statistics: ReplayStatistics,
}

pub(crate) fn reached(progress: Progress, next: usize, state: State) -> StepResult
    ensures { result ≡ stepped progress next state }
{
    StepResult {
        progress,
        next,
        state,
    }
}

// Before the first record: no node, and beside that the empty one.
pub(crate) fn nothing_yet() -> State
    ensures { result ≡ nothing_yet }
{
    let made = Node::new(Version::Draft, 0, absent_octets());
    let node = made.node;
    let kinds = [0u64; 6];
    let refusals = [0u64; 22];
    let report = ReplayStatistics {
        kinds,
        refusals,
        switches: 0,
        longest: 0,
    };
    State {
        made: false,
        node,
        started: 0,
        statistics: report,
    }
}

fn is_complete(progress: Progress) -> bool
    ensures { result ≡ is_complete progress }
{
    match progress {
        Progress::Complete => true,
        Progress::Stopped => false,
        Progress::Walked => false,
    }
}

impl StepResult {
    // What the last step leaves, as an answer.
    pub fn replayed(self) -> ReplayResult
        ensures { result ≡ replayed_by self }
    {
        let progress = self.progress;
        let state = self.state;
        let node = state.node;
        let report = state.statistics;
        ReplayResult {
            complete: is_complete(progress),
            offset: self.next,
            made: state.made,
            node,
            statistics: report,
        }
    }
}

impl State {
    // The state after the record of a kind, which stands at this place of the kinds, by what its call did.
    pub(crate) fn after(self, place: usize, done: CallResult, started: u64, longest: u64) -> State
        requires { place < 6 }
        ensures { result ≡ afterwards place done started longest self }
    {
        let old = self.statistics;
        let verdict = done.verdict;
        let node = done.node;
        let old_kinds = old.kinds;
        let old_refusals = old.refusals;
        let kinds = with_kind(old_kinds, place);
        let refusals = with_refusal(old_refusals, verdict);
        let report = ReplayStatistics {
            kinds,
            refusals,
            switches: more_if(done.switched, old.switches),
            longest,
        };
        State {
            made: true,
            node,
            started,
            statistics: report,
        }
    }
}
