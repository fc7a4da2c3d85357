// The join attempt: phase, clock and timing, which may stand together, and how an attempt starts.
ghost use Rattle.std.specs.Prelude.{◌≡◌};
ghost use Rattle.node_attempt.specs.Attempt.{is_waiting, is_joined, idle, first_timeout, timeout_after, valid, may_start};

use refusal::Refusal;

// Where the node stands with its join attempt.
#[derive(Clone, Copy)]
pub enum Phase {
    Idle,
    Waiting,
    Joined,
    GaveUp,
}

#[derive(Clone, Copy)]
pub struct Attempt {
    pub phase: Phase,
    // The last accepted time, in milliseconds, as all times are.
    pub clock: u64,
    // When the join request was last sent.
    pub sent: u64,
    // How long after that the next step is due; it counts while waiting.
    pub timeout: u64,
    // The retransmissions made.
    pub count: u8,
}

pub(crate) fn is_waiting(phase: Phase) -> bool
    ensures { result ≡ is_waiting phase }
{
    matches!(phase, Phase::Waiting)
}

pub(crate) fn is_joined(phase: Phase) -> bool
    ensures { result ≡ is_joined phase }
{
    matches!(phase, Phase::Joined)
}

// The attempt of a node that was just made.
pub fn idle() -> Attempt
    ensures { result ≡ idle }
{
    Attempt {
        phase: Phase::Idle,
        clock: 0,
        sent: 0,
        timeout: 0,
        count: 0,
    }
}

pub(crate) fn first_timeout(timeout: u64) -> bool
    ensures { result ≡ first_timeout timeout }
{
    Attempt::FIRST_TIMEOUT_LEAST <= timeout && timeout <= Attempt::FIRST_TIMEOUT_MOST
}

// A permitted first timeout doubled `count` times.
fn timeout_after(count: u8, timeout: u64) -> bool
    ensures { result ≡ timeout_after count timeout }
{
    let mut half = timeout;
    for _ in 0..count {
        if half % 2 != 0 {
            return false;
        }
        half /= 2;
    }
    first_timeout(half)
}

impl Attempt {
    pub const FIRST_TIMEOUT_LEAST: u64 = 10_000;

    pub const FIRST_TIMEOUT_MOST: u64 = 15_000;

    pub const RETRANSMISSIONS: u8 = 4;

    // Whether the attempt may be handed in; where it may not, each call answers RANGE.
    #[tactic(auto, unfolding(crate::specs::Attempt::valid))]
    pub fn valid(self) -> bool
        ensures { result ≡ valid self }
    {
        self.count <= Attempt::RETRANSMISSIONS
            && self.sent <= self.clock
            && (!is_waiting(self.phase) || timeout_after(self.count, self.timeout))
    }

    // Whether an attempt with this first timeout may start. RANGE: the attempt; CLOCK, PHASE; RANGE: the timeout.
    #[tactic(auto, unfolding(crate::specs::Attempt::may_start))]
    pub fn may_start(self, time: u64, timeout: u64) -> Result<(), Refusal>
        ensures { result ≡ may_start self time timeout }
    {
        if !self.valid() {
            return Err(Refusal::Range);
        }
        if time < self.clock {
            return Err(Refusal::Clock);
        }
        if is_waiting(self.phase) {
            return Err(Refusal::Phase);
        }
        if !first_timeout(timeout) {
            return Err(Refusal::Range);
        }
        Ok(())
    }
}
