// CBOR heads and byte strings (RFC 7049) are written to the front of a lent slice: shortest heads, and no byte where there is no room.
pub mod head;
pub mod string;

ghost use Rattle.cbor.specs.HeadLaws.{HeadLaws};

pub use head::{head_len, write_head};
pub use string::write_bytes;

// What is promised of the shortest head to those who write: how many bytes it takes.
pub fn head_laws()
    ensures { HeadLaws }
{}
