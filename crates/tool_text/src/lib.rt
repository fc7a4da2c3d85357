// Text for the desk tools: lines of words, numbers and HEX, read in as many parts as they come in, and answers written into a buffer.
// What is read is kept in small values, so a line may have any length.
#![tactic(auto)]

ghost use Rattle.std.specs.Prelude.{◌≡◌, ◌≢◌, ◌<◌, ◌∷◌, ◌++◌, length, take, drop, All, IfSome, IsNone};

pub use tool_numerals::{decimal, hex};

pub mod arguments;
pub mod input;
pub mod line;
pub mod line_error;
pub mod output;
pub mod parting;
pub mod session;
pub mod word;

// The first `len` of the items, or all where there are fewer.
pub fn first<'a, T>(items: &'a [T], len: usize) -> &'a [T]
    ensures { result.now ≡ take len items.now }
{
    items.get(..len).unwrap_or(items)
}

// The bytes from place `from` on, or none where there are fewer.
pub fn rest<'a>(bytes: &'a [u8], from: usize) -> &'a [u8]
    ensures { result.now ≡ drop from bytes.now }
{
    bytes.get(from..).unwrap_or(&[])
}

// The bytes before the first space, and what comes after it, where there is one.
pub fn split_word<'a>(bytes: &'a [u8]) -> (&'a [u8], Option<&'a [u8]>)
    ensures shorter { IfSome result.1 (λ after. length after.now < length bytes.now) }
    ensures parted { IfSome result.1 (λ after. bytes.now ≡ result.0.now ++ 32 ∷ after.now) }
    ensures whole { IsNone result.1 → result.0.now ≡ bytes.now }
    ensures word { All (λ b. b ≢ 32) result.0.now }
{
    match bytes.iter().position(|b| *b == b' ') {
        Some(space) => (&bytes[..space], Some(&bytes[space + 1..])),
        None => (bytes, None),
    }
}
