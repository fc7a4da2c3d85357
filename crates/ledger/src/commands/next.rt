// The lines of a session, one after the other.
use crate::commands::line::Line;
use tool_text::session::Session;

// Where the bytes of a board go, one more than it may have; and those of HEX, one more than the memory.
// Kept: arrays, since a line is read in constant memory and is never held whole (docs/DECISIONS.md, 174)
pub type Board = [u8; 9];

pub type Bytes = [u8; 40001];

// The next line, to its end or the input's; the bytes of a board and of HEX go to their buffers.
pub fn next_line(session: &mut Session, board: &mut [u8], hex: &mut [u8]) -> Line {
    let mut line = Line::new();
    session.read_line((), |(), part| line.more(part, board, hex));
    line
}
