// Arrays that are kept as they are written (RFC 9031: a blacklist, and reports of what a node could not act on).
ghost use Rattle.std.specs.Prelude.{◌≡◌};
ghost use Rattle.cojp.specs.Lists.{no_list_parameter};

use crate::disposition::Disposition;

// `count` members in the first `len` bytes, shortest heads one after another.
// Kept: no heap; C stores it in its images at fixed places (crates/object_image).
#[derive(Clone, Copy)]
pub struct ItemList {
    pub count: u64,
    pub len: usize,
    pub bytes: [u8; 253],
}

// Beside a list that is not good stands the empty one.
// Kept: the law `ListRoundTrip` (cojp_list/specs/Laws.antt) speaks of both.
#[derive(Clone, Copy)]
pub struct ListRead {
    pub good: bool,
    pub value: ItemList,
}

// The value counts where it is taken. It stands first, where its numbers are aligned: a report before it makes each copy dearer.
#[derive(Clone, Copy)]
pub struct ListParameter {
    pub value: ItemList,
    pub disposition: Disposition,
}

// A parameter with no value.
pub fn no_list(report: Disposition) -> ListParameter
    ensures { result ≡ no_list_parameter report }
{
    ListParameter {
        value: ItemList {
            count: 0,
            len: 0,
            bytes: [0u8; 253],
        },
        disposition: report,
    }
}
