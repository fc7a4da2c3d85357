// The calls of a ledger, each with the record that is to be in the journal before the call is answered.
ghost use Rattle.std.specs.Prelude.{◌≡◌};
ghost use Rattle.address_ledger.specs.Ledger.{granted, given_back};
ghost use Rattle.address_journal.specs.Entry.{RecordedSpec, grant_entry, back_entry};

use crate::due::{Entry, back_due, entry_of, grant_due};
use address_ledger::{CallResult, Ledger};
use refusal::Refusal;

// Kept: `RecordedSpec` has the ledger beside a refusal too, since a refused call leaves it as it was.
// What a call answered, and the ledger as it left it. Where a record is due the answer waits until its bytes are in the file and synced.
#[derive(Clone, Copy)]
pub struct RecordedCall {
    pub answer: Result<u16, Refusal>,
    pub ledger: Ledger,
    // the 16 bytes of the record, where one is due
    pub due: Option<[u8; 16]>,
    pub check: u32,
}

fn recorded(done: CallResult, entry: Entry) -> RecordedCall
    ensures { result ≡ record { answer = done.answer; ledger = done.ledger; due = entry.due; check = entry.check } }
{
    RecordedCall {
        answer: done.answer,
        ledger: done.ledger,
        due: entry.due,
        check: entry.check,
    }
}

// Grants, after the record or the header with this check.
pub fn grant(ledger: Ledger, memory: &mut [u8], board: [u8; 8], check: u32) -> RecordedCall
    ensures { RecordedSpec (granted ledger memory.old board) (grant_entry ledger memory.old board check)
        result.answer result.ledger memory.new result.due result.check }
{
    let entry = entry_of(1, board, check, grant_due(ledger, memory, &board));
    recorded(ledger.grant(memory, board), entry)
}

// Gives back, after the record or the header with this check.
pub fn give_back(ledger: Ledger, memory: &mut [u8], board: [u8; 8], check: u32) -> RecordedCall
    ensures { RecordedSpec (given_back ledger memory.old board) (back_entry ledger memory.old board check)
        result.answer result.ledger memory.new result.due result.check }
{
    let entry = entry_of(2, board, check, back_due(ledger, memory, &board));
    recorded(ledger.give_back(memory, board), entry)
}
