// What a line asks for: its command, with its numbers and HEX, or what is wrong with it.
use crate::verb::{Bytes, Shape, Verb, shape_of, verb_of};
use tool_numerals::decimal::Decimal;
use tool_text::line::Line;
use tool_text::line_error::LineError;

#[derive(Clone, Copy)]
pub struct Command {
    pub verb: Verb,
    // its numbers in order; 0 where there is none, or where a word is no number
    pub first: u64,
    pub second: u64,
    pub third: u64,
    pub fourth: u64,
    // how many bytes HEX stands for; none where `-` stands in its place
    pub hex: Option<usize>,
}

// The number as a byte; a command's roles, frame types and identifiers are no larger.
// Kept: a remainder, since `u8::try_from` would answer an error that cannot be
pub fn byte(number: u64) -> u8 {
    (number % 256) as u8
}

// The number as a frame counter; a command's counter is no larger.
pub fn counter(number: u64) -> u32 {
    (number % 4294967296) as u32
}

// What a line asks for; none, if it is empty or a comment. The error is the first thing that is wrong with it; whether its numbers name
// nodes is judged later.
pub fn command_of(line: Line) -> Result<Option<Command>, LineError> {
    if line.is_silent() {
        return Ok(None);
    }
    let verb = verb_of(line)?;
    judge(line, verb)?;
    let [first, second, third, fourth] = numbers_of(line);
    Ok(Some(Command {
        verb,
        first: value(first),
        second: value(second),
        third: value(third),
        fourth: value(fourth),
        hex: hex_of(line),
    }))
}

// The words after the command, as numbers.
fn numbers_of(line: Line) -> [Decimal; 4] {
    let head = line.head;
    let tail = line.tail;
    let next = tail.next;
    [head.first, head.second, tail.number, next.number]
}

// The number, or 0 where there is none.
fn value(number: Decimal) -> u64 {
    number.value().unwrap_or(0)
}

fn hex_of(line: Line) -> Option<usize> {
    if is_none(line) {
        return None;
    }
    Some(line.tail.hex.len)
}

// The first thing that is wrong with a command's line, if anything is.
fn judge(line: Line, verb: Verb) -> Result<(), LineError> {
    let shape = shape_of(verb);
    if !has_words(line, shape) {
        return Err(LineError::Command);
    }
    if !has_numbers(line, shape) {
        return Err(LineError::Number);
    }
    if !has_bytes(line, shape, verb) {
        return Err(LineError::Hex);
    }
    Ok(())
}

// Whether the line has the words that its command asks for.
fn has_words(line: Line, shape: Shape) -> bool {
    let bytes = shape.bytes;
    if let Some(Bytes::Rest) = bytes {
        return shape.words <= line.words();
    }
    shape.words == line.words()
}

// Whether the numbers that the command asks for are such.
fn has_numbers(line: Line, shape: Shape) -> bool {
    let numbers = numbers_of(line);
    let most = shape.numbers;
    numbers
        .iter()
        .zip(most.iter())
        .all(|(number, most)| is_within(*number, *most))
}

// Whether the word is what is asked of it as a number.
fn is_within(number: Decimal, most: Option<u64>) -> bool {
    most.is_none_or(|most| number.value().is_some_and(|number| number <= most))
}

// Whether the bytes that the command asks for stand there; `-` in the place of a new node's HEX stands for none.
fn has_bytes(line: Line, shape: Shape, verb: Verb) -> bool {
    if let Verb::Make(_) = verb {
        if is_none(line) {
            return true;
        }
    }
    let hex = line.tail.hex;
    let bytes = shape.bytes;
    match bytes {
        None => true,
        Some(Bytes::Rest) => hex.payload().is_some(),
        Some(Bytes::Two) => hex.payload() == Some(2),
    }
}

// Whether `-` alone stands where HEX would.
fn is_none(line: Line) -> bool {
    let tail = line.tail;
    if tail.extra {
        return false;
    }
    tail.word.is(b"-")
}
