// What gathering members into a destination comes to, and the list and the parameter that it is.
ghost use Rattle.std.specs.Prelude.{◌≡◌};
ghost use Rattle.cojp.specs.Lists.{nothing, list_answer, list_taken};
ghost use Rattle.cojp_list.specs.Gathered.{gathered_list};

use cojp::{Disposition, ItemList, ListParameter, ListRead, no_list};

// What was gathered: how many members, and how many bytes they are.
#[derive(Clone, Copy)]
pub(crate) struct Gathered {
    pub members: u64,
    pub len: usize,
}

impl Gathered {
    // The list of them, whose bytes stand in front of these.
    pub(crate) fn list(self, bytes: [u8; 253]) -> ItemList
        ensures { result ≡ record { count = self.members; len = self.len; bytes = bytes } }
    {
        ItemList {
            count: self.members,
            len: self.len,
            bytes,
        }
    }
}

pub(crate) fn bad_list() -> ListRead
    ensures { result ≡ list_answer nothing }
{
    let none = ItemList {
        count: 0,
        len: 0,
        bytes: [0u8; 253],
    };
    ListRead {
        good: false,
        value: none,
    }
}

// What was gathered into the front of the bytes, as a list; there is none where the pattern was broken or the room too little.
pub(crate) fn list_read(gathered: Option<Gathered>, bytes: [u8; 253]) -> ListRead
    ensures { result ≡ gathered_list gathered bytes }
{
    match gathered {
        Some(kept) => ListRead {
            good: true,
            value: kept.list(bytes),
        },
        None => bad_list(),
    }
}

// A good list is taken, a bad one is not.
pub fn taken_list(list: ListRead) -> ListParameter
    ensures { result ≡ list_taken list }
{
    if list.good {
        let value = list.value;
        return ListParameter {
            value,
            disposition: Disposition::Taken,
        };
    }
    no_list(Disposition::Discarded)
}
