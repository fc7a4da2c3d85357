// The range of an address ledger: its limits, the memory that it needs, and how many of its addresses count.
ghost use Rattle.std.specs.Prelude.{◌≡◌, ◌+◌, ◌≤◌, ◌<◌};
ghost use Rattle.short_address.specs.Address.{is_address, bytes_of};
ghost use Rattle.address_ledger.specs.range.Range.{in_limits, judged, counted, counted_in};

use address_slots::SLOT;
use refusal::Refusal;
use short_address::{bytes_of, is_address};

const SIZE_MOST: usize = 4096;

// One past FFFF, where a range ends at the latest.
const END: usize = 65536;

// Whether the range is in its limits.
#[tactic(auto, unfolding(crate::specs::range::Range::in_limits))]
pub(crate) fn in_limits(first: usize, size: usize) -> bool
    ensures { result ≡ in_limits first size }
{
    0 < size && size <= SIZE_MOST && first < END && first + size <= END
}

// Whether range and memory can be a ledger: RANGE comes first, then ROOM.
pub fn judge(first: usize, size: usize, len: usize) -> Result<(), Refusal>
    ensures { result ≡ judged first size len }
{
    if !in_limits(first, size) {
        return Err(Refusal::Range);
    }
    if len < SLOT * size {
        return Err(Refusal::Room);
    }
    Ok(())
}

// Whether the number is that of an address.
fn is_counted(number: usize) -> bool
    requires { number < 65536 }
    ensures { result ≡ is_address (bytes_of number) }
{
    let bytes = bytes_of(number as u16);
    is_address(bytes)
}

// How many of the range's addresses count, looked for from its end on: what is no address stands there.
fn count_down(first: usize, size: usize) -> usize
    requires { first + size ≤ 65536 }
    ensures { result ≡ counted first size }
{
    short_address::laws();
    for before in (0..size).rev() {
        if is_counted(first + before) {
            return before + 1;
        }
    }
    0
}

// How many of the range's addresses count; none of a range outside its limits.
pub fn count(first: usize, size: usize) -> usize
    ensures { result ≡ counted_in first size }
{
    if in_limits(first, size) {
        return count_down(first, size);
    }
    0
}
