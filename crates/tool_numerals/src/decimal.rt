// A word read as a decimal number, in as many parts as it comes in.
ghost use Rattle.std.specs.Prelude.{◌≡◌, List, ℕ};
ghost use Rattle.tool_numerals.specs.Decimal.{number_with, stepped, read_on, number_of, value_of};

// What the characters of a word stand for.
#[derive(Clone, Copy, PartialEq, Eq)]
pub enum Decimal {
    // There are none yet.
    Empty,
    Number(u64),
    // One is no digit, or the number is over 18446744073709551615.
    Fault,
}

impl Decimal {
    // The word with its next part.
    pub fn more(self, part: &[u8]) -> Decimal
        ensures { result ≡ read_on self part.now }
    {
        let mut number = self;
        for c in part {
            number = number.digit(*c);
        }
        number
    }

    // The number, where there is one.
    pub fn value(self) -> Option<u64>
        ensures { result ≡ value_of self }
    {
        match self {
            Decimal::Number(value) => Some(value),
            Decimal::Empty | Decimal::Fault => None,
        }
    }

    // The word with one character more.
    fn digit(self, c: u8) -> Decimal
        ensures { result ≡ stepped self c }
    {
        match self {
            Decimal::Empty => with_digit(0, c),
            Decimal::Number(value) => with_digit(value, c),
            Decimal::Fault => Decimal::Fault,
        }
    }
}

// The number with one digit more at its end.
fn with_digit(value: u64, c: u8) -> Decimal
    ensures { result ≡ number_with value c }
{
    if !c.is_ascii_digit() {
        return Decimal::Fault;
    }
    let digit = u64::from(c - b'0');
    if (u64::MAX - digit) / 10 < value {
        return Decimal::Fault;
    }
    Decimal::Number(value * 10 + digit)
}

// A word, whole or in parts, is read as the number that it stands for.
#[tactic(auto, using(crate::proofs::Numbers::word_is_number))]
pub fn decimal_law()
    ensures { (word : List ℕ) → read_on Decimal.Empty word ≡ number_of word }
{}
