// A word after the command, read as a number and as bytes at once.
ghost use Rattle.std.specs.Prelude.{◌≡◌, ◌≤◌, length, take};

use tool_numerals::decimal::Decimal;
use tool_numerals::hex::Hex;
use tool_text::first;
use tool_text::word::Word;

#[derive(Clone, Copy)]
pub struct Argument {
    // its letters: `-` alone stands for no bytes
    word: Word,
    number: Decimal,
    hex: Hex,
    bytes: [u8; 80],
}

impl Argument {
    pub fn new() -> Argument {
        Argument {
            word: Word::new(),
            number: Decimal::Empty,
            hex: Hex::new(),
            bytes: [0; 80],
        }
    }

    // The word with its next part.
    pub fn more(&mut self, part: &[u8]) {
        self.word = self.word.more(part);
        self.number = self.number.more(part);
        self.hex = self.hex.more(part, &mut self.bytes);
    }

    // The number, or 0 where there is none.
    pub fn value(&self) -> u64 {
        self.number.value().unwrap_or(0)
    }

    // Whether it is a number up to `most`.
    pub fn is_number(&self, most: u64) -> bool {
        self.number.value().is_some_and(|value| value <= most)
    }

    // The bytes that are kept of it.
    pub fn bytes(&self) -> &[u8]
        ensures { length result.now ≤ self.now.hex.len }
    {
        if self.word.is(b"-") {
            return &[];
        }
        first(&self.bytes, self.hex.len)
    }

    // The first `N` of them, where so many are asked for.
    pub fn array<const N: usize>(&self) -> [u8; N]
        ensures { N ≤ 80 → result ≡ take N self.now.bytes }
    {
        self.bytes.first_chunk().copied().unwrap_or([0; N])
    }

    // Whether it stands for bytes: hexadecimal digits, an even count of them, or `-`.
    pub fn is_bytes(&self) -> bool {
        self.word.is(b"-") || self.hex.payload().is_some()
    }
}
