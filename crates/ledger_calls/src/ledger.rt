// The address ledger.
ghost use Rattle.address_ledger_laws.specs.Demand1.{asking, returning};
ghost use Rattle.std.specs.Prelude.{◌≡◌};
ghost use Rattle.ledger_calls.specs.Ledger.{Opens, LedgerDid, Counts, lent};

use crate::store::{store_address, store_ledger};
use address_ledger::Ledger;
use image::{RANGE, array_at};
use state_image::{is_ledger, ledger_in};

// Opens a ledger over memory that may hold earlier grants.
pub fn ledger_open(first: u64, size: u64, memory: &[u8], ledger: &mut [u8]) -> u32
    ensures { Opens first size memory.now ledger.old result ledger.new }
{
    if ledger.len() != 16 {
        return RANGE;
    }
    let opened = Ledger::open(first as usize, size as usize, memory);
    store_ledger(opened.verdict, opened.ledger, ledger)
}

// The ledger of an image and the board of eight bytes, where both are what they should be.
fn lent(ledger: &[u8], board: &[u8]) -> Option<(Ledger, [u8; 8])>
    ensures { result ≡ lent ledger.now board.now }
{
    if board.len() == 8 && is_ledger(ledger) {
        return Some((ledger_in(ledger), array_at(board, 0)));
    }
    None
}

// Grants the board the lowest free address, or the one that it holds.
pub fn ledger_grant(ledger: &mut [u8], memory: &mut [u8], board: &[u8], address: &mut u16) -> u32
    ensures { LedgerDid (asking board.now) ledger.old memory.old result ledger.new
        memory.new address.new }
{
    address_ledger_laws::demand1();
    let Some(parts) = lent(ledger, board) else {
        *address = 0;
        return RANGE;
    };
    let holder = parts.1;
    let done = parts.0.grant(memory, holder);
    store_address(done.answer, done.ledger, ledger, address)
}

// Takes the board's address back.
pub fn ledger_give_back(
    ledger: &mut [u8],
    memory: &mut [u8],
    board: &[u8],
    address: &mut u16,
) -> u32
    ensures { LedgerDid (returning board.now) ledger.old memory.old result ledger.new
        memory.new address.new }
{
    address_ledger_laws::demand1();
    let Some(parts) = lent(ledger, board) else {
        *address = 0;
        return RANGE;
    };
    let holder = parts.1;
    let done = parts.0.give_back(memory, holder);
    store_address(done.answer, done.ledger, ledger, address)
}

// How many addresses are free.
pub fn ledger_free(ledger: &[u8], count: &mut u64) -> u32
    ensures { Counts ledger.now result count.new }
{
    if !is_ledger(ledger) {
        *count = 0;
        return RANGE;
    }
    match ledger_in(ledger).free() {
        Ok(n) => {
            *count = n as u64;
            0
        }
        Err(why) => {
            *count = 0;
            why.number() as u32
        }
    }
}
