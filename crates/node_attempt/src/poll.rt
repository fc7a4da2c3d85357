// Polling: what is due in a join attempt.
ghost use Rattle.std.specs.Prelude.{◌≡◌, ◌≤◌, Err};
ghost use Rattle.node_attempt.specs.Poll.{step, stepped, poll};

use crate::attempt::{Attempt, Phase, is_waiting};
use refusal::Refusal;

// What a poll tells the caller to do.
#[derive(Clone, Copy)]
pub enum Due {
    NotYet,
    SendAgain,
    GaveUp,
}

// What was due, and the attempt afterwards; beside a refusal the attempt as it was.
// Kept: the theorem AttemptDemand1 speaks of the attempt beside a refusal.
#[derive(Clone, Copy)]
pub struct AttemptResult {
    pub due: Result<Due, Refusal>,
    pub attempt: Attempt,
}

impl Attempt {
    fn refused(self, why: Refusal) -> AttemptResult
        ensures { result ≡ step (Err why) self }
    {
        AttemptResult {
            due: Err(why),
            attempt: self,
        }
    }

    // The step that is due: the request goes out again, or the node gives up.
    #[tactic(auto, unfolding(crate::specs::Poll::stepped))]
    fn stepped(self, time: u64) -> AttemptResult
        requires { self.timeout ≤ 240000 }
        ensures { result ≡ stepped self time }
    {
        if self.count < Attempt::RETRANSMISSIONS {
            return AttemptResult {
                due: Ok(Due::SendAgain),
                attempt: Attempt {
                    clock: time,
                    sent: time,
                    timeout: 2 * self.timeout,
                    count: self.count + 1,
                    ..self
                },
            };
        }
        AttemptResult {
            due: Ok(Due::GaveUp),
            attempt: Attempt {
                phase: Phase::GaveUp,
                clock: time,
                ..self
            },
        }
    }

    // Asks what is due; at most one step per poll. RANGE: the attempt; CLOCK, PHASE.
    #[tactic(auto, unfolding(crate::specs::Poll::poll))]
    pub fn poll(self, time: u64) -> AttemptResult
        ensures { result ≡ poll self time }
    {
        if !self.valid() {
            return self.refused(Refusal::Range);
        }
        if time < self.clock {
            return self.refused(Refusal::Clock);
        }
        if !is_waiting(self.phase) {
            return self.refused(Refusal::Phase);
        }
        if self.timeout <= time - self.sent {
            return self.stepped(time);
        }
        AttemptResult {
            due: Ok(Due::NotYet),
            attempt: Attempt {
                clock: time,
                ..self
            },
        }
    }
}
