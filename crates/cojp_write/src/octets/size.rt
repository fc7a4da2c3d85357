// How much there is to write, before any of it is written.
ghost use Rattle.std.specs.Prelude.{[], ◌+◌, ◌≤◌};
ghost use Rattle.cojp_write.specs.octets.Size.{Sizes, Sum};

// How many members of a map or an array, and how many bytes they take.
#[derive(Clone, Copy)]
pub struct Size {
    pub members: usize,
    pub bytes: usize,
}

// No member.
pub(crate) fn no_size() -> Size
    ensures { Sizes 0 [] 0 0 result }
{
    Size {
        members: 0,
        bytes: 0,
    }
}

// The one after the other.
pub(crate) fn plus(a: Size, b: Size) -> Size
    requires { (a.members + b.members ≤ 1000) × (a.bytes + b.bytes ≤ 1000) }
    ensures { Sum a b result }
{
    Size {
        members: a.members + b.members,
        bytes: a.bytes + b.bytes,
    }
}
