// Arrays of a published configuration or request that are kept as they are written: read and judged. `cojp_write` writes them.
#![tactic(auto)]

pub mod error_entries;
mod error_entry;
pub mod kept;
pub mod list;
pub mod listed;
pub mod strings;

ghost use Rattle.cojp_list.specs.Laws.{ListLaws};

pub use error_entries::read_unsupported;
pub use kept::{is_blacklist, is_unsupported};
pub use list::taken_list;
pub use listed::unsupported_of;
pub use strings::read_blacklist;

// What is promised of lists that are kept: their bytes, and that they read back.
pub fn laws()
    ensures { ListLaws }
{}
