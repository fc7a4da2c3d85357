// The ledger and its calls.
ghost use Rattle.std.specs.Prelude.{◌≡◌, ◌+◌, ◌<◌, length};
ghost use Rattle.address_slots.specs.Slot.{slots, slot_found};
ghost use Rattle.address_slots.specs.Marks.{refreshed, slot_found_by};
ghost use Rattle.address_ledger.specs.range.Range.{Usable};
ghost use Rattle.address_ledger.specs.Ledger.{ledger_of, opened, outcome, answered, granted};
ghost use Rattle.address_ledger.specs.Ledger.{granting, given_back, giving_back, free_count};

use crate::answer::{CallResult, OpenResult};
use crate::free::{one_less, one_more};
use crate::range::{count, in_limits, judge};
use address_slots::{SLOT, SlotFound, find_board, find_slot, hold_slot, refresh_group, summarize};
use refusal::Refusal;

// A range of short addresses, the first one and how many there are, how many of them are free, and where. Its memory is lent at each call.
#[derive(Clone, Copy)]
pub struct Ledger {
    pub first: usize,
    pub size: usize,
    // any number may be handed in: a wrong one changes no other answer
    pub free: usize,
    // a bit for each 64 addresses, the lowest first: whether any is free. Any may be handed in; wrong ones can hide a free address
    pub summary: u64,
}

impl Ledger {
    // The ledger without addresses, which every call refuses.
    pub const EMPTY: Ledger = Ledger {
        first: 0,
        size: 0,
        free: 0,
        summary: 0,
    };

    // Opens a ledger over the memory as it is: who holds an address there still does, and the count and the summary are made of it.
    pub fn open(first: usize, size: usize, memory: &[u8]) -> OpenResult
        ensures { result ≡ opened first size memory.now }
    {
        if let Err(refusal) = judge(first, size, memory.len()) {
            return OpenResult {
                verdict: Err(refusal),
                ledger: Ledger::EMPTY,
            };
        }
        let found = summarize(memory, count(first, size));
        OpenResult {
            verdict: Ok(()),
            ledger: Ledger {
                first,
                size,
                free: found.free,
                summary: found.bitmap,
            },
        }
    }

    // Grants the lowest free address, as the summary leads to it, to the board; a board that holds one gets the same again.
    pub fn grant(self, memory: &mut [u8], board: [u8; 8]) -> CallResult
        ensures { outcome result.answer result.ledger memory.new ≡ granted self memory.old board }
    {
        match judge(self.first, self.size, memory.len()) {
            Err(refusal) => self.refused(refusal),
            Ok(()) => self.grant_in(count(self.first, self.size), memory, board),
        }
    }

    // The board gives its address back: a mark 0 is written and nothing else.
    pub fn give_back(self, memory: &mut [u8], board: [u8; 8]) -> CallResult
        ensures { outcome result.answer result.ledger memory.new ≡ given_back self memory.old board }
    {
        match judge(self.first, self.size, memory.len()) {
            Err(refusal) => self.refused(refusal),
            Ok(()) => self.give_back_in(count(self.first, self.size), memory, board),
        }
    }

    // How many addresses are free, as the ledger keeps it.
    pub fn free(self) -> Result<usize, Refusal>
        ensures { result ≡ free_count self }
    {
        if in_limits(self.first, self.size) {
            return Ok(self.free);
        }
        Err(Refusal::Range)
    }

    // Grants among the first `count` places.
    fn grant_in(self, count: usize, memory: &mut [u8], board: [u8; 8]) -> CallResult
        requires { Usable self.first (length memory.old) count }
        ensures { outcome result.answer result.ledger memory.new
            ≡ granting count self memory.old board (slot_found_by self.summary board (slots count memory.old)) }
    {
        match find_slot(memory, count, self.summary, &board) {
            SlotFound::Held(place) => self.address(place),
            SlotFound::Free(place) => {
                hold_slot(memory, place, board);
                let free = one_less(self.free, count);
                self.rewritten(free, count, memory, place).address(place)
            }
            SlotFound::Nothing => self.refused(Refusal::Full),
        }
    }

    // Gives back among the first `count` places.
    fn give_back_in(self, count: usize, memory: &mut [u8], board: [u8; 8]) -> CallResult
        requires { Usable self.first (length memory.old) count }
        ensures { outcome result.answer result.ledger memory.new
            ≡ giving_back count self memory.old (slot_found board (slots count memory.old)) }
    {
        match find_board(memory, count, &board) {
            Some(place) => {
                memory[SLOT * place] = 0;
                let free = one_more(self.free, count);
                self.rewritten(free, count, memory, place).address(place)
            }
            None => self.refused(Refusal::Unknown),
        }
    }

    // The ledger with so many free addresses, after the place was written: its group is marked anew.
    fn rewritten(self, free: usize, count: usize, memory: &[u8], place: usize) -> Ledger
        requires { Usable self.first (length memory.now) count }
        ensures { result ≡ ledger_of self.first self.size free (refreshed self.summary place (slots count memory.now)) }
    {
        Ledger {
            free,
            summary: refresh_group(memory, count, self.summary, place),
            ..self
        }
    }

    // The address of a place, answered.
    fn address(self, place: usize) -> CallResult
        requires { self.first + place < 65536 }
        ensures { result ≡ answered (Ok (self.first + place)) self }
    {
        CallResult {
            answer: Ok((self.first + place) as u16),
            ledger: self,
        }
    }

    fn refused(self, refusal: Refusal) -> CallResult
        ensures { result ≡ answered (Err refusal) self }
    {
        CallResult {
            answer: Err(refusal),
            ledger: self,
        }
    }
}
