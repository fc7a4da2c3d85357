// What is wrong with a line, and its answer.
use crate::output::Output;
use std::error::Error;
use std::fmt;
use std::fmt::{Display, Formatter, Write};

// In the order in which they are looked for.
#[derive(Clone, Copy, Debug, PartialEq, Eq)]
pub enum LineError {
    // the command is unknown, or a word is missing or too many
    Command,
    Number,
    Hex,
    // there is no such node
    Node,
    // the node has no such key
    Key,
    // there are more bytes than the tool takes
    Long,
    // there is no such file, or it cannot be read
    File,
}

impl Display for LineError {
    fn fmt<W: Write>(&self, f: &mut Formatter<W>) -> fmt::Result {
        write!(f, "error ")?;
        match self {
            LineError::Command => write!(f, "command"),
            LineError::Number => write!(f, "number"),
            LineError::Hex => write!(f, "hex"),
            LineError::Node => write!(f, "node"),
            LineError::Key => write!(f, "key"),
            LineError::Long => write!(f, "long"),
            LineError::File => write!(f, "file"),
        }
    }
}

impl Error for LineError {}

// The answer `error WORD`.
pub fn put_line_error(out: &mut Output, error: LineError) {
    write!(out, "{error}");
}
