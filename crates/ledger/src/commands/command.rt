// What a line asks for: its command, with its numbers and bytes, or what is wrong with it.
use crate::commands::line::Line;
use crate::memory;
use tool_numerals::decimal::Decimal;
use tool_text::first;
use tool_text::line_error::LineError;

#[derive(Clone, Copy)]
pub enum Command<'a> {
    // first address, size
    Open(usize, usize),
    // a board
    Grant([u8; 8]),
    Back([u8; 8]),
    Free,
    // how many bytes are lent
    Lend(usize),
    // place, how many bytes
    Read(usize, usize),
    // place, the bytes
    Write(usize, &'a [u8]),
    Clear,
    // the kept count
    Count(usize),
    // a bit for each group
    Marks(u64),
    Show,
    // every address that is held
    List,
    // the board of an address
    Who(u16),
    // the address of the board, which is not granted one
    Holds([u8; 8]),
}

// What a line asks for, the bytes of its board and of HEX beside it; or the first thing that is wrong with it.
pub fn command_of<'a>(line: Line, board: &[u8], hex: &'a [u8]) -> Result<Command<'a>, LineError> {
    let command = line.command;
    let letters = command.letters;
    match first(&letters, command.len) {
        b"grant" => Ok(Command::Grant(bytes_after(line, board)?)),
        b"back" => Ok(Command::Back(bytes_after(line, board)?)),
        b"holds" => Ok(Command::Holds(bytes_after(line, board)?)),
        b"who" => Ok(Command::Who(u16::from_be_bytes(bytes_after(line, board)?))),
        b"free" => alone(line, Command::Free),
        b"clear" => alone(line, Command::Clear),
        b"show" => alone(line, Command::Show),
        b"list" => alone(line, Command::List),
        b"lend" => Ok(Command::Lend(place_of(number_after(line)?)?)),
        b"count" => Ok(Command::Count(number_after(line)?)),
        b"open" => {
            let (first, size) = numbers_after(line)?;
            Ok(Command::Open(first, size))
        }
        b"read" => {
            let (place, count) = numbers_after(line)?;
            within_memory(place, count)?;
            Ok(Command::Read(place, count))
        }
        b"write" => write_command(line, hex),
        b"marks" => marks_command(line),
        _ => Err(LineError::Command),
    }
}

// A command with no words after it.
fn alone<'a>(line: Line, command: Command<'a>) -> Result<Command<'a>, LineError> {
    with_words(line, 1)?;
    Ok(command)
}

// That the line has so many words.
fn with_words(line: Line, words: usize) -> Result<(), LineError> {
    if line.words != words {
        return Err(LineError::Command);
    }
    Ok(())
}

// The `N` bytes that stand after the command.
fn bytes_after<const N: usize>(line: Line, board: &[u8]) -> Result<[u8; N], LineError> {
    with_words(line, 2)?;
    if line.board.payload() != Some(N) {
        return Err(LineError::Hex);
    }
    let bytes = board.first_chunk::<N>().ok_or(LineError::Hex)?;
    Ok(*bytes)
}

// The word as a number.
fn number(word: Decimal) -> Result<usize, LineError> {
    let number = word.value().ok_or(LineError::Number)?;
    Ok(number as usize)
}

// The number that stands after the command.
fn number_after(line: Line) -> Result<usize, LineError> {
    with_words(line, 2)?;
    number(line.first)
}

// The two numbers that stand after the command.
fn numbers_after(line: Line) -> Result<(usize, usize), LineError> {
    with_words(line, 3)?;
    Ok((number(line.first)?, number(line.second)?))
}

fn marks_command<'a>(line: Line) -> Result<Command<'a>, LineError> {
    let groups = line.groups.ended();
    let marks = groups.marks.ok_or(LineError::Number)?;
    Ok(Command::Marks(marks))
}

fn write_command<'a>(line: Line, hex: &'a [u8]) -> Result<Command<'a>, LineError> {
    if line.words < 2 {
        return Err(LineError::Command);
    }
    let place = place_of(number(line.first)?)?;
    let len = line.hex.payload().ok_or(LineError::Hex)?;
    within_memory(place, len)?;
    Ok(Command::Write(place, first(hex, len)))
}

// A place of the memory, or its end.
fn place_of(number: usize) -> Result<usize, LineError> {
    if memory::SIZE < number {
        return Err(LineError::Number);
    }
    Ok(number)
}

// That so many bytes from a place on do not reach past the memory's end.
fn within_memory(place: usize, count: usize) -> Result<(), LineError> {
    let left = memory::SIZE.checked_sub(place).ok_or(LineError::Number)?;
    if left < count {
        return Err(LineError::Number);
    }
    Ok(())
}
