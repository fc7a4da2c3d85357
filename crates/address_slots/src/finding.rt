// What the places have for a board.
ghost use Rattle.std.specs.Prelude.{◌≡◌, ◌*◌, ◌≤◌, length};
ghost use Rattle.address_slots.specs.Slot.{slots, held_by, lowest_from, fit};
ghost use Rattle.address_slots.specs.Marks.{free_by, slot_found_by};

use crate::groups::{GROUPS, find_in_group};
use crate::slot::{SlotFound, find_holder, fit};

// The lowest free place of the first marked group that has one.
fn find_marked(memory: &[u8], count: usize, marks: u64) -> SlotFound
    requires { 9 * count ≤ length memory.now }
    ensures { result ≡ free_by 64 marks 0 (slots count memory.now) }
{
    let mut left = marks;
    for group in 0..GROUPS {
        if left % 2 == 1 {
            if let Some(place) = find_in_group(memory, group, count) {
                return SlotFound::Free(place);
            }
        }
        left /= 2;
    }
    SlotFound::Nothing
}

// The lowest place that the board holds, of the first `count`.
pub fn find_board(memory: &[u8], count: usize, board: &[u8; 8]) -> Option<usize>
    ensures { result ≡ lowest_from (held_by board.now) 0 (slots (fit count (length memory.now)) memory.now) }
{
    find_holder(memory, fit(count, memory.len()), board)
}

// The place that the board holds, by a walk of the first `count` places; else a free one, by the marks.
pub fn find_slot(memory: &[u8], count: usize, marks: u64, board: &[u8; 8]) -> SlotFound
    ensures { result ≡ slot_found_by marks board.now (slots (fit count (length memory.now)) memory.now) }
{
    let room = fit(count, memory.len());
    match find_holder(memory, room, board) {
        Some(held) => SlotFound::Held(held),
        None => find_marked(memory, room, marks),
    }
}
