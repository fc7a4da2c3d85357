// The face of the address ledger for the benchmark in C (bench/ledger): a script of calls is played on one ledger.
use crate::bytes::first_bytes;
use address_ledger::{CallResult, Ledger};
use refusal::Refusal;

// The ledger after a call, and what was answered so far, summed.
#[derive(Clone, Copy)]
struct Played {
    ledger: Ledger,
    sum: u64,
}

// Opens a ledger and plays the script: nine bytes a call, 0 grant, 1 give back, 2 how many are free, and the board.
// Answers are summed, a refusal as 70,000.
#[unsafe(no_mangle)]
pub extern "C" fn ledger_play(first: usize, size: usize, memory: &mut [u8], script: &[u8]) -> u64 {
    let opened = Ledger::open(first, size, memory);
    let ledger = opened.ledger;
    let mut played = Played { ledger, sum: 0 };
    for step in script.chunks_exact(9) {
        if let [kind, board @ ..] = step {
            played = call(played, memory, *kind, first_bytes(board));
        }
    }
    played.sum
}

fn call(played: Played, memory: &mut [u8], kind: u8, board: [u8; 8]) -> Played {
    let ledger = played.ledger;
    match kind {
        0 => played.after_call(ledger.grant(memory, board)),
        1 => played.after_call(ledger.give_back(memory, board)),
        _ => played.with(ledger.free().map(|count| count as u64)),
    }
}

impl Played {
    fn after_call(mut self, called: CallResult) -> Played {
        self.ledger = called.ledger;
        let answer = called.answer;
        self.with(answer.map(|address| u64::from(address)))
    }

    // With an answer summed.
    fn with(mut self, answer: Result<u64, Refusal>) -> Played {
        self.sum = self.sum.wrapping_add(answer.unwrap_or(70000));
        self
    }
}
