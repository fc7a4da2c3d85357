// A line of a tool's input: a command word, numbers, and HEX to the line's end, read in as many parts as it comes in.
ghost use Rattle.std.specs.Prelude.{◌≡◌, ◌≤◌, ◌++◌, length};

use crate::parting::{Parted, Parting};
use crate::split_word;
use crate::word::Word;
use tool_numerals::decimal::Decimal;
use tool_numerals::hex::Hex;

// The words before the one at which HEX begins.
#[derive(Clone, Copy)]
pub struct Head {
    // how many have begun
    pub words: usize,
    // whether the last of them may go on
    pub inside: bool,
    // whether HEX has begun
    pub full: bool,
    pub command: Word,
    // the first and the second word after the command, as numbers
    pub first: Decimal,
    pub second: Decimal,
    // the second by its letters
    pub name: Word,
}

// The line from the word on at which HEX begins.
#[derive(Clone, Copy)]
pub struct Tail {
    // that word by itself: its letters, its number, whether it has ended, and whether another comes after it
    pub word: Word,
    pub number: Decimal,
    pub ended: bool,
    pub extra: bool,
    // the word after it
    pub next: Next,
    // all of it as HEX, and how a `+` parts that
    pub hex: Hex,
    pub parting: Parting,
}

// A word by its number, whether it has begun and ended, and whether another comes after it.
#[derive(Clone, Copy)]
pub struct Next {
    pub number: Decimal,
    begun: bool,
    ended: bool,
    pub extra: bool,
}

// What the lines of a tool look like.
#[derive(Clone, Copy)]
pub struct Form {
    // the word at which HEX begins, the command being word 0
    pub hex_at: usize,
    // whether that word may be a number, or stand for something by itself
    pub is_word: bool,
    // the command after which that word stands for something by itself, and HEX begins after it, if there is one
    pub apart: Option<&'static [u8]>,
}

#[derive(Clone, Copy)]
pub struct Line {
    pub head: Head,
    pub tail: Tail,
}

impl Head {
    fn new() -> Head {
        Head {
            words: 0,
            inside: false,
            full: false,
            command: Word::new(),
            first: Decimal::Empty,
            second: Decimal::Empty,
            name: Word::new(),
        }
    }

    // The head with a part of the line, and what the part has of HEX, which begins at word `rest`.
    fn more<'a>(self, part: &'a [u8], rest: usize) -> (Head, &'a [u8])
        ensures { length result.1.now ≤ length part.now }
    {
        let mut head = self;
        let mut left = part;
        while !left.is_empty() {
            let (word, after) = split_word(left);
            head = head.next(word, after.is_some(), rest);
            if head.full {
                return (head, left);
            }
            left = after.unwrap_or(&[]);
        }
        (head, left)
    }

    // The head with what stands before a space, if it is one that comes then: a word, the rest of one, or nothing.
    fn next(mut self, part: &[u8], space: bool, rest: usize) -> Head {
        if !self.inside {
            if part.is_empty() {
                return self;
            }
            if rest <= self.words {
                self.full = true;
                return self;
            }
            self.words += 1;
        }
        self.inside = !space;
        self.word(part)
    }

    // The head with a part of its last word.
    fn word(mut self, part: &[u8]) -> Head {
        match self.words {
            1 => self.command = self.command.more(part),
            2 => self.first = self.first.more(part),
            3 => {
                self.second = self.second.more(part);
                self.name = self.name.more(part);
            }
            _ => {}
        }
        self
    }
}

impl Tail {
    fn new() -> Tail {
        Tail {
            word: Word::new(),
            number: Decimal::Empty,
            ended: false,
            extra: false,
            next: Next::new(),
            hex: Hex::new(),
            parting: Parting::new(),
        }
    }

    // The tail with a part of the line.
    fn more(self, part: &[u8], is_word: bool, buffer: &mut [u8]) -> Tail {
        let parted = self.parted().more(part, buffer);
        let (word, after) = word_end(part, is_word && !self.ended);
        self.with(word, after, parted)
    }

    // The same where HEX begins after the word.
    fn more_apart(self, part: &[u8], buffer: &mut [u8]) -> Tail {
        let (word, after) = word_end(part, !self.ended);
        let parted = self.parted().more(after, buffer);
        self.with(word, after, parted)
    }

    // HEX, and how a `+` parts it.
    pub fn parted(self) -> Parted {
        Parted {
            hex: self.hex,
            parting: self.parting,
        }
    }

    // The tail with a part of the word by itself, what comes after it, and HEX.
    fn with(self, part: &[u8], after: &[u8], parted: Parted) -> Tail {
        Tail {
            word: self.word.more(part),
            number: self.number.more(part),
            ended: self.ended || !after.is_empty(),
            extra: self.extra || has_word(after),
            next: self.next.more(after),
            hex: parted.hex,
            parting: parted.parting,
        }
    }
}

impl Next {
    fn new() -> Next {
        Next {
            number: Decimal::Empty,
            begun: false,
            ended: false,
            extra: false,
        }
    }

    // The word with a part of the line, from where it begins or goes on.
    fn more(self, part: &[u8]) -> Next {
        let from = if self.begun { part } else { after_spaces(part) };
        let (word, after) = word_end(from, !self.ended);
        Next {
            number: self.number.more(word),
            begun: self.begun || !from.is_empty(),
            ended: self.ended || !after.is_empty(),
            extra: self.extra || has_word(after),
        }
    }
}

impl Line {
    pub fn new() -> Line {
        Line {
            head: Head::new(),
            tail: Tail::new(),
        }
    }

    // The line with its next part; HEX goes to the buffer.
    pub fn more(self, part: &[u8], form: Form, buffer: &mut [u8]) -> Line {
        let (head, hex) = self.head.more(part, form.hex_at);
        let is_apart = form.apart.is_some_and(|command| head.command.is(command));
        let tail = if is_apart {
            self.tail.more_apart(hex, buffer)
        } else {
            self.tail.more(hex, form.is_word, buffer)
        };
        Line { head, tail }
    }

    // Whether it holds no command: it is empty, or a comment.
    pub fn is_silent(self) -> bool {
        self.head.command.is_silent()
    }

    // How many words it has, counted no further than two after the word at which HEX begins.
    pub fn words(self) -> usize {
        let words = self.head.words;
        if 16 < words || !self.head.full {
            return words;
        }
        if self.tail.next.extra {
            return words + 3;
        }
        if self.tail.extra {
            return words + 2;
        }
        words + 1
    }
}

// The rest of the word that goes on at the part's start, if one does, and what comes after it.
fn word_end<'a>(part: &'a [u8], goes_on: bool) -> (&'a [u8], &'a [u8])
    ensures { result.0.now ++ result.1.now ≡ part.now }
{
    if !goes_on {
        return (&[], part);
    }
    match part.iter().position(|b| *b == b' ') {
        Some(space) => part.split_at(space),
        None => (part, &[]),
    }
}

// The part from the first byte on that is no space.
fn after_spaces<'a>(part: &'a [u8]) -> &'a [u8] {
    match part.iter().position(|b| *b != b' ') {
        Some(start) => &part[start..],
        None => &[],
    }
}

// Whether there is anything but spaces.
fn has_word(part: &[u8]) -> bool {
    part.iter().any(|b| *b != b' ')
}
