// Who holds what, asked without a change.
ghost use Rattle.std.specs.Prelude.{◌≡◌, ◌+◌, ◌*◌, ◌≤◌, ◌<◌, length};
ghost use Rattle.address_ledger.specs.range.Range.{Usable};
ghost use Rattle.address_journal.specs.Held.{held_address, address_found, holder_in, holder_of};
ghost use Rattle.address_slots.specs.Slot.{held_by, lowest, slots};

use address_ledger::Ledger;
use address_ledger::range::{count, judge};
use address_slots::{SLOT, find_board};
use refusal::Refusal;

// The address of a board that holds one of the first `count` slots.
fn held_in(ledger: Ledger, count: usize, memory: &[u8], board: &[u8; 8]) -> Result<u16, Refusal>
    requires { Usable ledger.first (length memory.now) count }
    ensures { result ≡ address_found ledger.first count (lowest (held_by board.now) (slots count memory.now)) }
{
    match find_board(memory, count, board) {
        Some(slot) => Ok((ledger.first + slot) as u16),
        None => Err(Refusal::Unknown),
    }
}

// The address that the board holds; UNKNOWN if it holds none.
pub fn held_address(ledger: Ledger, memory: &[u8], board: &[u8; 8]) -> Result<u16, Refusal>
    ensures { result ≡ held_address ledger memory.now board.now }
{
    judge(ledger.first, ledger.size, memory.len())?;
    held_in(ledger, count(ledger.first, ledger.size), memory, board)
}

// The board in a slot; UNKNOWN if none holds it.
fn holder_in(memory: &[u8], slot: usize) -> Result<[u8; 8], Refusal>
    requires slot_in_bounds { 9 * slot + 9 ≤ length memory.now }
    requires slot_bound { slot < 4096 }
    ensures { result ≡ holder_in memory.now slot }
{
    let at = SLOT * slot;
    if memory[at] != 1 {
        return Err(Refusal::Unknown);
    }
    Ok([
        memory[at + 1],
        memory[at + 2],
        memory[at + 3],
        memory[at + 4],
        memory[at + 5],
        memory[at + 6],
        memory[at + 7],
        memory[at + 8],
    ])
}

// The board that holds the address; UNKNOWN if none does.
pub fn holder_of(ledger: Ledger, memory: &[u8], address: usize) -> Result<[u8; 8], Refusal>
    ensures { result ≡ holder_of ledger memory.now address }
{
    judge(ledger.first, ledger.size, memory.len())?;
    let n = count(ledger.first, ledger.size);
    if address < ledger.first {
        return Err(Refusal::Unknown);
    }
    let slot = address - ledger.first;
    if n <= slot {
        return Err(Refusal::Unknown);
    }
    holder_in(memory, slot)
}
