// The commands by their first words, and which words stand after each.
use crate::edit::{Edit, edit_of};
use protocol_version::Version;
use tool_text::first;
use tool_text::line::Line;
use tool_text::line_error::LineError;

#[derive(Clone, Copy)]
pub enum Verb {
    Set(Edit),
    // a node of a form
    Make(Version),
    // so many bytes are lent to a start
    Room,
    Start,
    Poll,
    Answer,
    Update,
    Holds,
    Send,
    Receive,
    Verified,
    Turn,
    Show,
}

// What is asked of a word, or of the line's rest, as bytes.
#[derive(Clone, Copy)]
pub enum Bytes {
    // HEX to the line's end
    Rest,
    // a word of two bytes
    Two,
}

// What is asked of the words of a line.
#[derive(Clone, Copy)]
pub struct Shape {
    // how many there are before HEX, the command among them
    pub words: usize,
    // the largest number that each word after the command may be; none where it need not be a number
    pub numbers: [Option<u64>; 4],
    // none where no bytes are asked for
    pub bytes: Option<Bytes>,
}

const ANY: Option<u64> = Some(u64::MAX);

// A role, a frame type, a key identifier or a count of sendings is a byte.
const BYTE: Option<u64> = Some(255);

const COUNTER: Option<u64> = Some(4294967295);

// A payload's length.
const ROOM: Option<u64> = Some(256);

// The command that the line's first word names, with what a bench command's other words do.
pub fn verb_of(line: Line) -> Result<Verb, LineError> {
    let head = line.head;
    let word = head.command;
    let letters = word.letters;
    let verb = match first(&letters, word.len) {
        b"set" => Verb::Set(edit_of(head.name, line.tail.word).ok_or(LineError::Command)?),
        b"node" => Verb::Make(Version::Draft),
        b"new-node" => Verb::Make(Version::Published),
        b"room" => Verb::Room,
        b"start" => Verb::Start,
        b"poll" => Verb::Poll,
        b"answer" => Verb::Answer,
        b"update" => Verb::Update,
        b"holds" => Verb::Holds,
        b"send" => Verb::Send,
        b"receive" => Verb::Receive,
        b"verified" => Verb::Verified,
        b"turn" => Verb::Turn,
        b"show" => Verb::Show,
        _ => return Err(LineError::Command),
    };
    Ok(verb)
}

pub fn shape_of(verb: Verb) -> Shape {
    match verb {
        Verb::Set(edit) => edit_shape(edit),
        Verb::Make(_) => shaped(3, [ANY, BYTE, None, None], Some(Bytes::Rest)),
        Verb::Room => shaped(2, [ROOM, None, None, None], None),
        Verb::Start => shaped(4, [ANY, ANY, ANY, None], None),
        Verb::Poll | Verb::Holds => shaped(3, [ANY, ANY, None, None], None),
        Verb::Answer | Verb::Update => shaped(3, [ANY, ANY, None, None], Some(Bytes::Rest)),
        Verb::Send => shaped(3, [ANY, BYTE, None, None], None),
        Verb::Receive | Verb::Verified => shaped(4, [ANY, BYTE, BYTE, None], None),
        Verb::Turn => shaped(4, [ANY, ANY, BYTE, None], None),
        Verb::Show => shaped(2, [ANY, None, None, None], None),
    }
}

// The field's name is no number; its value is one, or two bytes, or a word that stands for itself.
fn edit_shape(edit: Edit) -> Shape {
    match edit {
        Edit::Role | Edit::Count => shaped(4, [ANY, None, BYTE, None], None),
        Edit::Clock | Edit::Sent | Edit::Timeout => shaped(4, [ANY, None, ANY, None], None),
        Edit::Received | Edit::Lease => shaped(4, [ANY, None, ANY, None], None),
        Edit::Address => shaped(4, [ANY, None, None, None], Some(Bytes::Two)),
        Edit::Counter => shaped(5, [ANY, None, BYTE, COUNTER], None),
        _ => shaped(4, [ANY, None, None, None], None),
    }
}

fn shaped(words: usize, numbers: [Option<u64>; 4], bytes: Option<Bytes>) -> Shape {
    Shape {
        words,
        numbers,
        bytes,
    }
}
