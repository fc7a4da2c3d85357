// The groups that the words after a command name, read in as many parts as they come in: each a number to 63.
use tool_numerals::decimal::Decimal;

#[derive(Clone, Copy)]
pub struct Groups {
    // a bit for each group that was named; none where a word is no such number
    pub marks: Option<u64>,
    // the last word, which may go on
    number: Decimal,
}

impl Groups {
    pub fn new() -> Groups {
        Groups {
            marks: Some(0),
            number: Decimal::Empty,
        }
    }

    // The groups with a part of the last word.
    pub fn more(mut self, part: &[u8]) -> Groups {
        self.number = self.number.more(part);
        self
    }

    // The groups with the last word ended.
    pub fn ended(self) -> Groups {
        let bit = match self.number {
            Decimal::Empty => return self,
            Decimal::Number(group) => bit_of(group),
            Decimal::Fault => None,
        };
        Groups {
            marks: self.marks.zip(bit).map(|(marks, bit)| marks | bit),
            number: Decimal::Empty,
        }
    }
}

// The bit of a group; none where the number is past the last.
fn bit_of(group: u64) -> Option<u64> {
    if 63 < group {
        return None;
    }
    Some(1u64 << group)
}
