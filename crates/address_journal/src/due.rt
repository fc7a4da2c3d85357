// The record that a call would append, found before anything is written.
ghost use Rattle.std.specs.Prelude.{◌≡◌, length};
ghost use Rattle.address_slots.specs.Slot.{slots};
ghost use Rattle.address_slots.specs.Marks.{slot_found_by};
ghost use Rattle.address_ledger.specs.range.Range.{Usable};
ghost use Rattle.address_journal.specs.Entry.{grant_due, back_due, entry_of, written};
ghost use Rattle.address_journal.specs.EntryLemmas.{new_in};

use crate::format::{check_of, record_with};
use crate::held::held_address;
use address_ledger::Ledger;
use address_ledger::range::{count, judge};
use address_slots::{SlotFound, find_slot};

// The bytes of the record that is due, if one is, and the check afterwards.
#[derive(Clone, Copy)]
pub(crate) struct Entry {
    pub(crate) due: Option<[u8; 16]>,
    pub(crate) check: u32,
}

// The address that is granted newly among the first `count` slots.
fn grant_due_in(ledger: Ledger, count: usize, memory: &[u8], board: &[u8; 8]) -> Option<u16>
    requires { Usable ledger.first (length memory.now) count }
    ensures { result ≡ new_in ledger.first (slot_found_by ledger.summary board.now (slots count memory.now)) }
{
    match find_slot(memory, count, ledger.summary, board) {
        SlotFound::Free(slot) => Some((ledger.first + slot) as u16),
        SlotFound::Held(_) | SlotFound::Nothing => None,
    }
}

// The record of a grant.
pub(crate) fn grant_due(ledger: Ledger, memory: &[u8], board: &[u8; 8]) -> Option<u16>
    ensures { result ≡ grant_due ledger memory.now board.now }
{
    match judge(ledger.first, ledger.size, memory.len()) {
        Err(_) => None,
        Ok(()) => grant_due_in(ledger, count(ledger.first, ledger.size), memory, board),
    }
}

// The record of a give back.
#[tactic(auto, using(crate::proofs::Dues::due_back))]
pub(crate) fn back_due(ledger: Ledger, memory: &[u8], board: &[u8; 8]) -> Option<u16>
    ensures { result ≡ back_due ledger memory.now board.now }
{
    held_address(ledger, memory, board).ok()
}

// The bytes of a record of this kind that is due after the check `previous`.
pub(crate) fn entry_of(kind: u8, board: [u8; 8], previous: u32, due: Option<u16>) -> Entry
    ensures { written result.due result.check ≡ entry_of kind board previous due }
{
    match due {
        Some(address) => {
            let check = check_of(kind, board, address, previous);
            Entry {
                due: Some(record_with(kind, board, address, check)),
                check,
            }
        }
        None => Entry {
            due: None,
            check: previous,
        },
    }
}
