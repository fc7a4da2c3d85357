// What a command asks of its words, and what is wrong with a line that does not have them.
use crate::argument::Argument;
use crate::words::Words;
use tool_text::line_error::LineError;

// What a word is to be.
#[derive(Clone, Copy, PartialEq, Eq)]
pub enum Kind {
    // any word
    Any,
    // a number up to this one
    Number(u64),
    // so many bytes
    Exactly(usize),
    // bytes, however many
    Bytes,
}

#[derive(Clone, Copy)]
pub struct Shape {
    // the words after the command, HEX not among them
    pub words: &'static [Kind],
    // whether HEX follows them
    pub hex: bool,
}

impl Shape {
    // The first thing that is wrong with a line: words, numbers, bytes.
    pub fn judge(self, words: &Words) -> Result<(), LineError> {
        if !self.has_words(words.count) {
            return Err(LineError::Command);
        }
        let mut pairs = self.words.iter().zip(&words.arguments);
        if !pairs.all(|(kind, word)| kind.has_number(word)) {
            return Err(LineError::Number);
        }
        let mut pairs = self.words.iter().zip(&words.arguments);
        if !pairs.all(|(kind, word)| kind.has_bytes(word))
            || self.hex && words.hex.payload().is_none()
        {
            return Err(LineError::Hex);
        }
        Ok(())
    }

    fn has_words(self, count: usize) -> bool {
        let wanted = self.words.len() + 1;
        wanted == count || self.hex && wanted < count
    }
}

impl Kind {
    // Whether the word is a number, where one is asked for.
    fn has_number(self, word: &Argument) -> bool {
        match self {
            Kind::Number(most) => word.is_number(most),
            _ => true,
        }
    }

    // Whether the word is bytes, where they are asked for.
    fn has_bytes(self, word: &Argument) -> bool {
        match self {
            Kind::Exactly(len) => word.is_bytes() && word.bytes().len() == len,
            Kind::Bytes => word.is_bytes(),
            _ => true,
        }
    }
}
