// A line of the ledger's input, read in as many parts as it comes in: a command and its words.
use crate::commands::groups::Groups;
use tool_numerals::decimal::Decimal;
use tool_numerals::hex::Hex;
use tool_text::split_word;
use tool_text::word::Word;

#[derive(Clone, Copy)]
pub struct Line {
    // how many words have begun, counted no further than 4
    pub words: usize,
    // whether the last of them may go on
    inside: bool,
    pub command: Word,
    // the first word after the command as a number, and as the bytes of a board
    pub first: Decimal,
    pub board: Hex,
    // the second one as a number, and all from it on as HEX
    pub second: Decimal,
    pub hex: Hex,
    // all words after the command as groups
    pub groups: Groups,
}

impl Line {
    pub fn new() -> Line {
        Line {
            words: 0,
            inside: false,
            command: Word::new(),
            first: Decimal::Empty,
            board: Hex::new(),
            second: Decimal::Empty,
            hex: Hex::new(),
            groups: Groups::new(),
        }
    }

    // Reads the line's next part; the bytes of a board and of HEX go to their buffers.
    pub fn more(&mut self, part: &[u8], board: &mut [u8], hex: &mut [u8]) {
        let mut left = part;
        while !left.is_empty() {
            let (word, after) = split_word(left);
            self.add(word, after.is_some(), board, hex);
            left = after.unwrap_or(&[]);
        }
    }

    // Adds what stands before a space, if it is one that comes then: a word, the rest of one, or nothing.
    fn add(&mut self, part: &[u8], space: bool, board: &mut [u8], hex: &mut [u8]) {
        if !self.inside {
            if part.is_empty() {
                return;
            }
            if self.words < 4 {
                self.words += 1;
            }
            self.groups = self.groups.ended();
        }
        self.inside = !space;
        self.add_word(part, board, hex);
    }

    // Adds a part of the last word. The command names no group.
    fn add_word(&mut self, part: &[u8], board: &mut [u8], hex: &mut [u8]) {
        match self.words {
            0 => return,
            1 => {
                self.command = self.command.more(part);
                return;
            }
            2 => {
                self.first = self.first.more(part);
                self.board = self.board.more(part, board);
            }
            3 => {
                self.second = self.second.more(part);
                self.hex = self.hex.more(part, hex);
            }
            _ => self.hex = self.hex.more(part, hex),
        }
        self.groups = self.groups.more(part);
    }

    // Whether it holds no command: it is empty, or a comment.
    pub fn is_silent(self) -> bool {
        self.command.is_silent()
    }
}
