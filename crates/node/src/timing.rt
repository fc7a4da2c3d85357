// The join attempt: a start writes the join request, polls say when to send it again and when to give up.
ghost use Rattle.std.specs.Prelude.{◌≡◌};
ghost use Rattle.node_attempt.specs.Attempt.{waiting_from};
ghost use Rattle.node.specs.Node.{attempting};
ghost use Rattle.node.specs.Timing.{request_of, start_verdict, started_from, started_by, unstarted, StartDid, poll};

use crate::node::Node;
use cojp::{JoinRequest, no_error_reports};
use cojp_list::unsupported_of;
use cojp_write::write_request;
use node_attempt::{Attempt, Due, Phase};
use refusal::Refusal;

// A start wrote `length` bytes of the join request; beside a refusal stand 0 and the node as it was.
// Kept: the clause StartDid of `start` and the theorem Demand1 of node_laws speak of the node beside a refusal.
#[derive(Clone, Copy)]
pub struct StartResult {
    pub verdict: Result<(), Refusal>,
    pub length: usize,
    pub node: Node,
}

#[derive(Clone, Copy)]
pub struct PollResult {
    pub due: Result<Due, Refusal>,
    pub node: Node,
}

// The attempt that starts at this time, which was judged before: waiting, the counter 0.
fn waiting_from(time: u64, timeout: u64) -> Attempt
    ensures { result ≡ waiting_from time timeout }
{
    Attempt {
        phase: Phase::Waiting,
        clock: time,
        sent: time,
        timeout,
        count: 0,
    }
}

impl Node {
    // The node's join request.
    #[tactic(auto, unfolding(crate::specs::Timing::request_of))]
    fn request(self) -> JoinRequest
        ensures { result ≡ request_of self }
    {
        JoinRequest {
            role: self.role,
            network: self.network.parameter(),
            unsupported: unsupported_of(self.errors),
            errors: no_error_reports(),
            unknown: 0,
        }
    }

    // The node with another join attempt.
    fn attempting(mut self, attempt: Attempt) -> Node
        ensures { result ≡ attempting self attempt }
    {
        self.attempt = attempt;
        self
    }

    fn unstarted(self, why: Refusal) -> StartResult
        ensures { result ≡ unstarted why self }
    {
        StartResult {
            verdict: Err(why),
            length: 0,
            node: self,
        }
    }

    // Whether a join attempt may start. RANGE: the node; CLOCK, PHASE; RANGE: the timeout.
    #[tactic(auto, unfolding(crate::specs::Timing::start_verdict))]
    fn may_start(self, time: u64, timeout: u64) -> Result<(), Refusal>
        ensures { result ≡ start_verdict self time timeout }
    {
        if !self.valid() {
            return Err(Refusal::Range);
        }
        self.attempt.may_start(time, timeout)
    }

    // The answer to a start, by what became of its request.
    fn started(self, written: Result<usize, Refusal>, time: u64, timeout: u64) -> StartResult
        ensures { result ≡ started_by written self (started_from self time timeout) }
    {
        match written {
            Err(why) => self.unstarted(why),
            Ok(length) => StartResult {
                verdict: Ok(()),
                length,
                node: self.attempting(waiting_from(time, timeout)),
            },
        }
    }

    // Starts a join attempt with this first timeout: the join request is written to `dst`, and the node waits.
    // RANGE: the node; CLOCK, PHASE; RANGE: the timeout; OWED, ROOM.
    pub fn start(self, dst: &mut [u8], time: u64, timeout: u64) -> StartResult
        ensures { StartDid self time timeout dst.old result dst.new }
    {
        if let Err(why) = self.may_start(time, timeout) {
            return self.unstarted(why);
        }
        let written = write_request(dst, self.request(), self.version);
        self.started(written, time, timeout)
    }

    // Asks what is due in the join attempt; at most one step per poll. RANGE: the node; CLOCK, PHASE.
    #[tactic(auto, unfolding(crate::specs::Timing::poll))]
    pub fn poll(self, time: u64) -> PollResult
        ensures { result ≡ poll self time }
    {
        if !self.valid() {
            return PollResult {
                due: Err(Refusal::Range),
                node: self,
            };
        }
        let step = self.attempt.poll(time);
        PollResult {
            due: step.due,
            node: self.attempting(step.attempt),
        }
    }
}
