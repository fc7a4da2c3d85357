// HEX that a word `+` parts in two: what is needed beside HEX itself to tell the two apart.
use crate::line_error::LineError;
use tool_numerals::hex::Hex;

#[derive(Clone, Copy)]
pub struct Parting {
    // whether a word may begin here, and whether a `+` has begun one that may go on
    fresh: bool,
    waiting: bool,
    // how many bytes stand before the word `+`, once there was one
    first: Option<usize>,
    // whether one of the two is no HEX, or there was a second `+`
    faulty: bool,
}

// HEX and its parting.
#[derive(Clone, Copy)]
pub struct Parted {
    pub hex: Hex,
    pub parting: Parting,
}

// HEX that a `+` parts: how many bytes of the buffer stand before it, and how many in all.
#[derive(Clone, Copy)]
pub struct Halves {
    pub first: usize,
    pub whole: usize,
}

impl Parting {
    pub fn new() -> Parting {
        Parting {
            fresh: true,
            waiting: false,
            first: None,
            faulty: false,
        }
    }
}

impl Parted {
    // Both with a part of the line. Only where a `+` is about it goes character by character.
    pub fn more(self, part: &[u8], buffer: &mut [u8]) -> Parted {
        if part.contains(&b'+') || self.parting.waiting {
            return self.characters(part, buffer);
        }
        self.plain(part, buffer)
    }

    fn characters(self, part: &[u8], buffer: &mut [u8]) -> Parted {
        let mut parted = self;
        for c in part {
            parted = parted.character(*c, buffer);
        }
        parted
    }

    fn character(self, c: u8, buffer: &mut [u8]) -> Parted {
        let settled = self.settled(c == b' ');
        if c == b'+' {
            return settled.plus();
        }
        settled.plain(&[c], buffer)
    }

    // Characters none of which is a `+`.
    fn plain(mut self, part: &[u8], buffer: &mut [u8]) -> Parted {
        let unread = Hex {
            stray: false,
            ..self.hex
        };
        let read = unread.more(part, buffer);
        self.parting.faulty |= read.stray;
        self.hex = Hex {
            stray: self.hex.stray | read.stray,
            ..read
        };
        if let Some(last) = part.last() {
            self.parting.fresh = *last == b' ';
        }
        self
    }

    // A `+`, which is no digit, and may be a word by itself.
    fn plus(mut self) -> Parted {
        self.hex.stray = true;
        self.parting.waiting = self.parting.fresh;
        self.parting.faulty |= !self.parting.fresh;
        self.parting.fresh = false;
        self
    }

    // The `+` that waited, if one did, was a word by itself where one ends here; the first such parts HEX.
    fn settled(mut self, ends: bool) -> Parted {
        if !self.parting.waiting {
            return self;
        }
        self.parting.waiting = false;
        if !ends || self.parting.first.is_some() {
            self.parting.faulty = true;
            return self;
        }
        self.parting.first = Some(self.hex.len);
        self.parting.faulty |= self.hex.high.is_some();
        self
    }

    // What it comes to at the line's end. Without a `+` a word is missing.
    pub fn parts(self) -> Result<Halves, LineError> {
        let Parted { hex, parting } = self.settled(true);
        let Some(first) = parting.first else {
            return Err(LineError::Command);
        };
        if parting.faulty || hex.high.is_some() {
            return Err(LineError::Hex);
        }
        Ok(Halves {
            first,
            whole: hex.len,
        })
    }
}
