// The groups of 64 places and their marks, the bits of one number.
ghost use Rattle.std.specs.Prelude.{◌≡◌, not, ◌+◌, ◌*◌, ◌≤◌, ◌<◌, min, eqb, length};
ghost use Rattle.address_slots.specs.Slot.{slots, is_free, lowest_from, fit};
ghost use Rattle.address_slots.specs.Marks.{bit, with_mark, group_at, summary_of, refreshed};

use crate::slot::{PLACES_MOST, count_free, find_free, fit};

pub(crate) const GROUP: usize = 64;

pub(crate) const GROUPS: usize = 64;

// How many places are free, and which groups have a free one.
#[derive(Clone, Copy)]
pub struct Summary {
    pub free: usize,
    pub bitmap: u64,
}

// Where a group of the first `count` places ends.
pub(crate) fn group_end(group: usize, count: usize) -> usize
    requires { group < 64 }
    ensures { result ≡ min (64 * group + 64) count }
{
    count.min(GROUP * group + GROUP)
}

// The lowest free place of the group.
pub(crate) fn find_in_group(memory: &[u8], group: usize, count: usize) -> Option<usize>
    requires group_bound { group < 64 }
    requires count_in_bounds { 9 * count ≤ length memory.now }
    ensures { result ≡ lowest_from is_free (64 * group) (group_at group (slots count memory.now)) }
{
    let end = group_end(group, count);
    find_free(memory, GROUP * group, end)
}

// A group's mark, as the lowest bit.
fn mark_of(free: usize) -> u64
    ensures { result ≡ bit (not (eqb free 0)) }
{
    u64::from(free != 0)
}

// One walk over the first `count` places, group by group from the highest.
fn summarize_in(memory: &[u8], count: usize) -> Summary
    requires count_bound { count ≤ 4096 }
    requires count_in_bounds { 9 * count ≤ length memory.now }
    ensures { result ≡ summary_of (slots count memory.now) }
{
    let mut free: usize = 0;
    let mut marks: u64 = 0;
    for group in (0..GROUPS).rev() {
        let end = group_end(group, count);
        let found = count_free(memory, GROUP * group, end);
        let mark = mark_of(found);
        free += found;
        marks = mark + 2 * marks;
    }
    Summary {
        free,
        bitmap: marks,
    }
}

// What opening finds in the first `count` places.
pub fn summarize(memory: &[u8], count: usize) -> Summary
    ensures { result ≡ summary_of (slots (fit count (length memory.now)) memory.now) }
{
    summarize_in(memory, fit(count, memory.len()))
}

// The marks with one group's mark written.
fn with_mark(marks: u64, group: usize, mark: bool) -> u64
    requires { group < 64 }
    ensures { result ≡ with_mark group mark marks }
{
    let bit = 1u64 << group;
    if mark {
        return marks | bit;
    }
    marks & !bit
}

// The marks after a place was written: its group is marked anew.
pub fn refresh_group(memory: &[u8], count: usize, marks: u64, place: usize) -> u64
    ensures { result ≡ refreshed marks place (slots (fit count (length memory.now)) memory.now) }
{
    if PLACES_MOST <= place {
        return marks;
    }
    let group = place / GROUP;
    let free = find_in_group(memory, group, fit(count, memory.len()));
    with_mark(marks, group, free.is_some())
}
