// What a line asks of decode.
use protocol_version::Version;
use tool_text::line::Line;
use tool_text::line_error::LineError;
use tool_text::word::Word;

#[derive(Clone, Copy, PartialEq, Eq)]
pub enum Object {
    Request,
    Configuration,
}

// An object, in which form, and whether its heads must be the shortest.
#[derive(Clone, Copy)]
pub struct Reading {
    pub object: Object,
    pub version: Version,
    pub strict: bool,
}

#[derive(Clone, Copy)]
pub enum Command {
    // one that takes HEX
    OfHex(Asking),
    // two configurations joined
    Merge,
    // so many bytes of the store are lent
    Store(usize),
    // what arrived is read
    End(Reading),
    Reset,
}

// What is asked of HEX.
#[derive(Clone, Copy)]
pub enum Asking {
    // the head at the first byte
    Head,
    // the object of a payload
    Read(Reading),
    // that object, written again
    Rewrite(Reading),
    // a part of a payload arrives
    Part,
}

impl TryFrom<Word> for Reading {
    type Error = LineError;

    // The reading that the word names, as request or strict-new-configuration.
    fn try_from(word: Word) -> Result<Reading, LineError> {
        let name = word.name();
        let plain = name.strip_prefix(b"strict-");
        let rest = plain.unwrap_or(name);
        let published = rest.strip_prefix(b"new-");
        let object = match published.unwrap_or(rest) {
            b"request" => Object::Request,
            b"configuration" => Object::Configuration,
            _ => return Err(LineError::Command),
        };
        let version = match published {
            Some(_) => Version::Published,
            None => Version::Draft,
        };
        Ok(Reading {
            object,
            version,
            strict: plain.is_some(),
        })
    }
}

impl TryFrom<Line> for Command {
    type Error = LineError;

    // What the line asks for, HEX apart; all commands of a payload that comes in parts but `part` have a fixed number of words.
    fn try_from(line: Line) -> Result<Command, LineError> {
        let words = line.words();
        let command = match line.head.command.name() {
            b"head" => Command::OfHex(Asking::Head),
            b"rewrite" => Command::OfHex(Asking::Rewrite(Reading::try_from(line.tail.word)?)),
            b"merge" => Command::Merge,
            b"part" => Command::OfHex(Asking::Part),
            b"reset" if words == 1 => Command::Reset,
            b"end" if words == 2 => Command::End(Reading::try_from(line.tail.word)?),
            b"store" if words == 2 => Command::Store(lent_of(line)?),
            _ => Command::OfHex(Asking::Read(Reading::try_from(line.head.command)?)),
        };
        Ok(command)
    }
}

// How many bytes of the store the line lends.
fn lent_of(line: Line) -> Result<usize, LineError> {
    match line.tail.number.value() {
        Some(lent) if lent <= 512 => Ok(lent as usize),
        _ => Err(LineError::Number),
    }
}
