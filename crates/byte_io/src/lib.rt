// Bytes in lent slices, below any format: copied, and compared. The specs define what a writer returns (how many bytes it wrote, or why
// none), what it does with its destination and how a number is held in bytes, big-endian.
#![tactic(auto)]

mod compare;
mod copy;
mod number;

pub use compare::same_bytes;
pub use copy::copy_bytes;
pub use number::{number_of, put_number};
