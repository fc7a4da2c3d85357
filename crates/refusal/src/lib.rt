// The refusals of documents 01 (1 to 16) and 02 (17 to 22): why a call gives no object, with the number and the name of each.
// Only this crate goes by their cases, so that a new refusal is added here and nowhere else.
#![tactic(auto)]

ghost use Rattle.std.specs.Prelude.{◌≡◌};
ghost use Rattle.refusal.specs.Refusal.{number_of, name_of, Numbered};
ghost use Rattle.refusal.specs.Verdict.{verdict_of};

// Why a call was refused, with the documents' numbers.
#[derive(Clone, Copy, PartialEq, Eq)]
pub enum Refusal {
    Cut = 1,
    Form = 2,
    Deep = 3,
    Extra = 4,
    Type = 5,
    Twice = 6,
    Keys = 7,
    Role = 8,
    Owed = 9,
    Clash = 10,
    Clock = 11,
    Room = 12,
    Range = 13,
    Silent = 14,
    Long = 15,
    Phase = 16,
    Full = 17,
    Unknown = 18,
    Loose = 19,
    Seal = 20,
    Spent = 21,
    Stale = 22,
}

// The names in the order of their numbers, each filled up with zeros.
const NAMES: [[u8; 8]; 22] = [
    *b"CUT\0\0\0\0\0",
    *b"FORM\0\0\0\0",
    *b"DEEP\0\0\0\0",
    *b"EXTRA\0\0\0",
    *b"TYPE\0\0\0\0",
    *b"TWICE\0\0\0",
    *b"KEYS\0\0\0\0",
    *b"ROLE\0\0\0\0",
    *b"OWED\0\0\0\0",
    *b"CLASH\0\0\0",
    *b"CLOCK\0\0\0",
    *b"ROOM\0\0\0\0",
    *b"RANGE\0\0\0",
    *b"SILENT\0\0",
    *b"LONG\0\0\0\0",
    *b"PHASE\0\0\0",
    *b"FULL\0\0\0\0",
    *b"UNKNOWN\0",
    *b"LOOSE\0\0\0",
    *b"SEAL\0\0\0\0",
    *b"SPENT\0\0\0",
    *b"STALE\0\0\0",
];

impl Refusal {
    // The number that document 01 or 02 gives the refusal.
    pub fn number(self) -> u8
        ensures { result ≡ number_of self }
    {
        self as u8
    }

    // The name that document 01 or 02 gives the refusal, in ASCII, and zeros after it.
    pub fn name(self) -> [u8; 8]
        ensures { result ≡ name_of self }
    {
        let place = self.number() - 1;
        NAMES[place as usize]
    }
}

// An answer without its value: accepted, or why not.
pub fn verdict_of<T: Drop>(answer: Result<T, Refusal>) -> Result<(), Refusal>
    ensures { result ≡ verdict_of answer }
{
    match answer {
        Ok(_) => Ok(()),
        Err(why) => Err(why),
    }
}

// Every refusal has a number from 1 to 22.
pub fn number_range_law()
    ensures { Numbered }
{}
