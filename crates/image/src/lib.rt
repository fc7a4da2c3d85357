// Images: values as bytes at fixed places, for memory that a C program lends. The definitions and laws of parts stand in specs/; here are
// the leaves: a head, a byte, a number, bytes as they are. Each is put at the front of a lent slice, and got from a place of one.
#![tactic(auto)]

mod head;
mod number;
mod octets;

ghost use Rattle.std.specs.Prelude.{◌≡◌};
ghost use Rattle.refusal.specs.Verdict.{verdict_number};

pub use head::{is_headed, put_head};
pub use number::{number_at, put_number};
pub use octets::{array_at, clear, put_array, put_byte};
use refusal::Refusal;

// The number of RANGE, which every call answers first: to a struct of another length, and to bytes that are no image.
pub const RANGE: u32 = Refusal::Range as u32;

// The number that C is answered.
pub fn number_of(verdict: Result<(), Refusal>) -> u32
    ensures { result ≡ verdict_number verdict }
{
    match verdict {
        Ok(()) => 0,
        Err(why) => why.number() as u32,
    }
}
