// What has come of a payload: a value beside the lent store.
ghost use Rattle.std.specs.Prelude.{◌≡◌};
ghost use Rattle.cojp_serial.specs.State.{empty_state, decision_of, overran, end_marked};

// `arrived` bytes stand in the store; a part passed the 256; the end was marked.
#[derive(Clone, Copy)]
pub struct SerialState {
    pub arrived: usize,
    pub overrun: bool,
    pub ended: bool,
}

// How a call finds what it is handed: outside the limits (RANGE), overrun (LONG), ended (PHASE), or open to it.
// Kept: no Result is plainer, since `part_answer` and `end_state` go by the case and not by the refusal alone.
#[derive(Clone, Copy)]
pub enum PartDecision {
    Outside,
    Overrun,
    Ended,
    Open,
}

// Starts anew: nothing arrived. The store need not be cleared, since nothing of it can be seen.
pub fn reset() -> SerialState
    ensures { result ≡ empty_state }
{
    SerialState {
        arrived: 0,
        overrun: false,
        ended: false,
    }
}

impl SerialState {
    // How `n` bytes more find this arrival and a store of `lent` bytes.
    #[tactic(auto, unfolding(crate::specs::State::decision_of))]
    pub(crate) fn decision(self, lent: usize, n: usize) -> PartDecision
        ensures { result ≡ decision_of self lent n }
    {
        if lent < 256 || 256 < self.arrived {
            return PartDecision::Outside;
        }
        if self.overrun || 256 - self.arrived < n {
            return PartDecision::Overrun;
        }
        if self.ended {
            return PartDecision::Ended;
        }
        PartDecision::Open
    }

    // The overrun is marked, and nothing else changes.
    pub(crate) fn overran(self) -> SerialState
        ensures { result ≡ overran self }
    {
        SerialState {
            overrun: true,
            ..self
        }
    }

    // The end is marked, and nothing else changes.
    pub(crate) fn end_marked(self) -> SerialState
        ensures { result ≡ end_marked self }
    {
        SerialState {
            ended: true,
            ..self
        }
    }
}
