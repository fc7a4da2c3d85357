// A part of a payload, appended to what has come.
ghost use Rattle.std.specs.Prelude.{◌≡◌};
ghost use Rattle.cojp_serial.specs.State.{Parted, refused_part};

use crate::state::{PartDecision, SerialState};
use refusal::Refusal;

// What a part is answered, and the arrival afterwards.
// Kept: the arrival counts beside a refusal too, which may mark the overrun (`part_answer` in the clause of `part`).
#[derive(Clone, Copy)]
pub struct PartResult {
    pub verdict: Result<(), Refusal>,
    pub state: SerialState,
}

fn refused_part(why: Refusal, arrival: SerialState) -> PartResult
    ensures { result ≡ refused_part why arrival }
{
    PartResult {
        verdict: Err(why),
        state: arrival,
    }
}

// Takes the bytes of a part into the store, behind those that arrived. One that would pass 256 is LONG:
// none of it is stored, the overrun is marked.
pub fn part(arrival: SerialState, store: &mut [u8], sent: &[u8]) -> PartResult
    ensures { Parted arrival store.old sent.now result store.new }
{
    let decision = arrival.decision(store.len(), sent.len());
    match decision {
        PartDecision::Outside => refused_part(Refusal::Range, arrival),
        PartDecision::Overrun => refused_part(Refusal::Long, arrival.overran()),
        PartDecision::Ended => refused_part(Refusal::Phase, arrival),
        PartDecision::Open => {
            let at = arrival.arrived;
            let n = byte_io::copy_bytes(sent, &mut store[at..]);
            PartResult {
                verdict: Ok(()),
                state: SerialState {
                    arrived: at + n,
                    ..arrival
                },
            }
        }
    }
}
