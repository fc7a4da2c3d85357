// A range that several fixtures share, each with a part of its own.
ghost use Rattle.std.specs.Prelude.{◌≡◌};
ghost use Rattle.address_journal.specs.Share.{part_of, no_part};

// The range of one fixture.
// Kept: `part_of` says that a fixture there is not has the range of first address 0 and size 0, which opening refuses with RANGE.
#[derive(Clone, Copy)]
pub struct Part {
    pub first: usize,
    pub size: usize,
}

fn no_part() -> Part
    ensures { result ≡ no_part }
{
    Part { first: 0, size: 0 }
}

// The part of a fixture, numbered from 1 on, of so many; none where there is no such fixture.
pub fn part_of(first: usize, size: usize, fixture: usize, fixtures: usize) -> Part
    ensures { result ≡ part_of first size fixture fixtures }
{
    if 65536 < first {
        return no_part();
    }
    if 4096 < size {
        return no_part();
    }
    if fixture == 0 {
        return no_part();
    }
    if fixtures < fixture {
        return no_part();
    }
    let each = size / fixtures;
    let before = each * (fixture - 1);
    Part {
        first: first + before,
        size: each,
    }
}
