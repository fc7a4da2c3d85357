// The commands by their first words, and which words stand after each.
use tool_text::line_error::LineError;
use tool_text::word::Word;
use tool_words::shape::{Kind, Shape};

#[derive(Clone, Copy, PartialEq, Eq)]
pub enum Verb {
    Block,
    Expand,
    Substitute,
    Seal,
    Open,
    Room,
    Destination,
}

impl TryFrom<Word> for Verb {
    type Error = LineError;

    // The command that the word names.
    fn try_from(word: Word) -> Result<Verb, LineError> {
        match word.name() {
            b"block" => Ok(Verb::Block),
            b"expand" => Ok(Verb::Expand),
            b"substitute" => Ok(Verb::Substitute),
            b"seal" => Ok(Verb::Seal),
            b"open" => Ok(Verb::Open),
            b"room" => Ok(Verb::Room),
            b"destination" => Ok(Verb::Destination),
            _ => Err(LineError::Command),
        }
    }
}

impl Verb {
    pub fn shape(self) -> Shape {
        let words: &'static [Kind] = match self {
            // a key and a block
            Verb::Block => &[Kind::Exactly(16), Kind::Exactly(16)],
            Verb::Expand => &[Kind::Exactly(16)],
            Verb::Substitute => &[Kind::Number(255)],
            // a key, a nonce and associated data
            Verb::Seal | Verb::Open => &[Kind::Exactly(16), Kind::Exactly(13), Kind::Bytes],
            Verb::Room => &[Kind::Number(512)],
            Verb::Destination => &[],
        };
        Shape {
            words,
            hex: matches!(self, Verb::Seal | Verb::Open),
        }
    }
}
