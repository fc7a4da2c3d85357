// The commands by their first words, and which words stand after each.
use tool_text::line_error::LineError;
use tool_text::word::Word;
use tool_words::shape::{Kind, Shape};

#[derive(Clone, Copy, PartialEq, Eq)]
pub enum Verb {
    Make,
    Key,
    Issue,
    Judge,
    Show,
    Issued,
    Room,
    Destination,
}

impl TryFrom<Word> for Verb {
    type Error = LineError;

    // The command that the word names.
    fn try_from(word: Word) -> Result<Verb, LineError> {
        match word.name() {
            b"proxy" => Ok(Verb::Make),
            b"key" => Ok(Verb::Key),
            b"issue" => Ok(Verb::Issue),
            b"judge" => Ok(Verb::Judge),
            b"show" => Ok(Verb::Show),
            b"issued" => Ok(Verb::Issued),
            b"room" => Ok(Verb::Room),
            b"destination" => Ok(Verb::Destination),
            _ => Err(LineError::Command),
        }
    }
}

// Which proxy.
const PROXY: Kind = Kind::Number(u64::MAX);

impl Verb {
    pub fn shape(self) -> Shape {
        let words: &'static [Kind] = match self {
            Verb::Make | Verb::Key => &[PROXY, Kind::Exactly(16)],
            // a pledge's interface identifier, port and token
            Verb::Issue => &[PROXY, Kind::Exactly(8), Kind::Number(65535), Kind::Bytes],
            Verb::Judge | Verb::Show => &[PROXY],
            Verb::Issued => &[PROXY, Kind::Number(4294967296)],
            Verb::Room => &[Kind::Number(64)],
            Verb::Destination => &[],
        };
        Shape {
            words,
            hex: self == Verb::Judge,
        }
    }
}
