// A line's words.
ghost use Rattle.std.specs.Prelude.{◌≡◌, take};

use crate::argument::Argument;
use tool_numerals::hex::Hex;
use tool_text::first;
use tool_text::word::Word;

#[derive(Clone, Copy)]
pub struct Words {
    // how many have begun, the command among them; from sixteen on they are not counted
    pub count: usize,
    // whether the last of them may go on
    inside: bool,
    pub command: Word,
    // the four words after the command
    pub arguments: [Argument; 4],
    // the line from a word on, as HEX
    pub hex: Hex,
    payload: [u8; 320],
}

impl Words {
    pub fn new() -> Words {
        Words {
            count: 0,
            inside: false,
            command: Word::new(),
            arguments: [Argument::new(); 4],
            hex: Hex::new(),
            payload: [0; 320],
        }
    }

    // Reads the line's next part; HEX begins at word `hex_at`, the command being word 0. The words stand where they are: to hand them on
    // would copy 900 bytes for each line.
    pub fn more(&mut self, part: &[u8], hex_at: usize) {
        for (spaces, word) in part.split(|b| *b == b' ').enumerate() {
            self.inside = self.inside && spaces == 0;
            if !word.is_empty() {
                self.add(word, hex_at);
            }
        }
    }

    // Adds a word, or more of the last one.
    fn add(&mut self, word: &[u8], hex_at: usize) {
        if !self.inside {
            self.count = self.count.saturating_add(1).min(16);
        }
        self.inside = true;
        match self.count {
            1 => self.command = self.command.more(word),
            2..=5 => self.arguments[self.count - 2].more(word),
            _ => {}
        }
        if hex_at < self.count {
            self.hex = self.hex.more(word, &mut self.payload);
        }
    }

    // The bytes that are kept of HEX.
    pub fn payload(&self) -> &[u8]
        ensures { result.now ≡ take self.now.hex.len self.now.payload }
    {
        first(&self.payload, self.hex.len)
    }

    // Whether the line holds no command: it is empty, or a comment.
    pub fn is_silent(&self) -> bool {
        self.command.is_silent()
    }
}
