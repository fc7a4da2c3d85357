// The places of the lent memory, nine bytes each: a mark (1 held, else free) and the board that holds it.
ghost use Rattle.std.specs.Prelude.{◌≡◌, ◌+◌, ◌-◌, ◌*◌, ◌≤◌, ◌<◌, length, drop};
ghost use Rattle.address_slots.specs.Slot.{slot_at, slots, same, is_free, held_by, lowest_from, count_free, hold, hold_within, fit};

pub const SLOT: usize = 9;

// No ledger has more places.
pub(crate) const PLACES_MOST: usize = 4096;

const HELD: u8 = 1;

// What the places have for a board: the lowest one that it holds, else the free one that was looked for.
// Kept: no plainer: three answers of one search, matched by `Held(k)`, `Free(k)`, `Nothing`; an Option of two cases would nest two matches.
#[derive(Clone, Copy)]
pub enum SlotFound {
    Held(usize),
    Free(usize),
    Nothing,
}

// Whether the board's bytes stand from `at` on. The last byte is compared first: boards of one maker have the same first bytes.
fn is_board(memory: &[u8], at: usize, board: &[u8; 8]) -> bool
    requires { at + 8 ≤ length memory.now }
    ensures { result ≡ same 8 (drop at memory.now) board.now }
{
    if memory[at + 7] != board[7] {
        return false;
    }
    // Kept: not `==` of two slices, which is a function call for each slot unless the length is constant; nor of two arrays, which compares
    // all eight bytes: boards that differ in an early byte took three times the time.
    for i in 0..8 {
        if memory[at + i] != board[i] {
            return false;
        }
    }
    true
}

// Whether the board holds the place that begins at `at`.
#[tactic(auto, using(crate::proofs::Scan::held_not, crate::proofs::Scan::held_same))]
fn holds(memory: &[u8], at: usize, board: &[u8; 8]) -> bool
    requires { at + 9 ≤ length memory.now }
    ensures { result ≡ held_by board.now (slot_at (drop at memory.now)) }
{
    memory[at] == HELD && is_board(memory, at + 1, board)
}

// So many places, where they are no more than a ledger has and the memory has room for them; else none.
pub(crate) fn fit(count: usize, len: usize) -> usize
    ensures { result ≡ fit count len }
{
    if count <= PLACES_MOST && SLOT * count <= len {
        return count;
    }
    0
}

// The lowest place that the board holds, of the first `count`.
pub(crate) fn find_holder(memory: &[u8], count: usize, board: &[u8; 8]) -> Option<usize>
    requires { 9 * count ≤ length memory.now }
    ensures { result ≡ lowest_from (held_by board.now) 0 (slots count memory.now) }
{
    for i in 0..count {
        if holds(memory, SLOT * i, board) {
            return Some(i);
        }
    }
    None
}

// The lowest free place from `from` on and before `end`.
pub(crate) fn find_free(memory: &[u8], from: usize, end: usize) -> Option<usize>
    requires { 9 * end ≤ length memory.now }
    ensures { result ≡ lowest_from is_free from (slots (end - from) (drop (9 * from) memory.now)) }
{
    for i in from..end {
        if memory[SLOT * i] != HELD {
            return Some(i);
        }
    }
    None
}

// How many places from `from` on and before `end` are free.
pub(crate) fn count_free(memory: &[u8], from: usize, end: usize) -> usize
    requires { 9 * end ≤ length memory.now }
    ensures { result ≡ count_free (slots (end - from) (drop (9 * from) memory.now)) }
{
    let mut n: usize = 0;
    for i in from..end {
        if memory[SLOT * i] != HELD {
            n += 1;
        }
    }
    n
}

// Mark 1 and the board's bytes are written at the place.
fn write_slot(memory: &mut [u8], place: usize, board: [u8; 8])
    requires place_bound { place < 4096 }
    requires place_in_bounds { 9 * place + 9 ≤ length memory.old }
    ensures { memory.new ≡ hold memory.old place board }
{
    let at = SLOT * place;
    memory[at] = HELD;
    memory[at + 1..at + SLOT].copy_from_slice(&board);
}

// The board holds the place from now on; a place for which there is no room is not written.
pub fn hold_slot(memory: &mut [u8], place: usize, board: [u8; 8])
    ensures { memory.new ≡ hold_within memory.old place board }
{
    if PLACES_MOST <= place {
        return;
    }
    if memory.len() < SLOT * place + SLOT {
        return;
    }
    write_slot(memory, place, board);
}
