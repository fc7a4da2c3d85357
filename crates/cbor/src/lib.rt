// CBOR data items (RFC 7049): the specs say what bytes mean, as a tree of items, and what every reader and writer of items answers.
// Here heads are read, and what a head says of a label or a value; `crate::scan` passes over items, `crate::write` writes.
#![tactic(auto)]

pub mod head;
pub mod item;
pub mod scan;
pub mod value;
pub mod write;

ghost use Rattle.cbor.specs.Laws.{ItemLaws};

pub(crate) use head::read_head_by;
pub use head::{Head, read_head};
pub use item::MapHead;
pub use value::{Label, Value, value_at};
pub use write::head_laws;

// What is promised of items to the layers above: the round trip, what is left after an item, the shortest head.
pub fn laws()
    ensures { ItemLaws }
{}
