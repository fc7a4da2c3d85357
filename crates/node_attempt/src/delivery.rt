// Deliveries: a configuration comes in a join answer (join response) or in a parameter update. When one may be handed over, and what it
// does to the join attempt.
ghost use Rattle.std.specs.Prelude.{◌≡◌};
ghost use Rattle.node_attempt.specs.delivery.Demand1.{DeliveryDemand1};
ghost use Rattle.node_attempt.specs.delivery.Delivery.{phase_after, attempt_after, belongs, asks_identifier, may_come};

use crate::attempt::{Attempt, Phase, is_joined, is_waiting};
use refusal::Refusal;

// A longer payload is LONG.
const PAYLOAD_MOST: usize = 256;

#[derive(Clone, Copy)]
pub enum Delivery {
    JoinAnswer,
    Update,
}

impl Delivery {
    // An accepted join answer makes the node joined.
    fn phase_after(self, phase: Phase) -> Phase
        ensures { result ≡ phase_after self phase }
    {
        match self {
            Delivery::JoinAnswer => Phase::Joined,
            Delivery::Update => phase,
        }
    }

    // The join attempt after an accepted configuration: the time is its clock.
    pub fn attempt_after(self, old: Attempt, time: u64) -> Attempt
        ensures { result ≡ attempt_after self old time }
    {
        Attempt {
            phase: self.phase_after(old.phase),
            clock: time,
            ..old
        }
    }

    // A join answer belongs to waiting, an update to joined.
    fn belongs(self, phase: Phase) -> bool
        ensures { result ≡ belongs self phase }
    {
        match self {
            Delivery::JoinAnswer => is_waiting(phase),
            Delivery::Update => is_joined(phase),
        }
    }

    // Only a join answer can owe a network identifier.
    pub fn asks_identifier(self) -> bool
        ensures { result ≡ asks_identifier self }
    {
        matches!(self, Delivery::JoinAnswer)
    }

    // Whether a payload of so many bytes may be handed over. RANGE: the attempt; LONG, CLOCK, PHASE.
    #[tactic(auto, unfolding(crate::specs::delivery::Delivery::may_come))]
    pub fn may_come(self, attempt: Attempt, time: u64, len: usize) -> Result<(), Refusal>
        ensures { result ≡ may_come self attempt time len }
    {
        if !attempt.valid() {
            return Err(Refusal::Range);
        }
        if PAYLOAD_MOST < len {
            return Err(Refusal::Long);
        }
        if time < attempt.clock {
            return Err(Refusal::Clock);
        }
        if !self.belongs(attempt.phase) {
            return Err(Refusal::Phase);
        }
        Ok(())
    }
}

// Demand 1 for deliveries.
pub fn demand1()
    ensures { DeliveryDemand1 }
{}
