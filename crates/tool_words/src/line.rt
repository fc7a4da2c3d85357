// The lines of a session, as words.
use crate::words::Words;
use std::io;
use tool_text::line_error::LineError;
use tool_text::output::Output;
use tool_text::session::Session;

// What a tool keeps from line to line, and how it answers one.
pub trait Tool {
    // the word at which HEX begins, the command being word 0
    const HEX_AT: usize;

    // Answers a command, or says what is wrong with the line.
    fn answer(&mut self, words: &Words, out: &mut Output) -> Result<(), LineError>;
}

// Answers line after line until the input ends or nobody reads the answers; an empty line and a comment are not answered.
pub fn run<T: Tool>(session: Session, tool: &mut T) -> io::Result<()> {
    session.run(|session| answer_line(session, tool))
}

fn answer_line<T: Tool>(session: &mut Session, tool: &mut T) {
    let mut words = Words::new();
    session.read_line((), |(), part| words.more(part, T::HEX_AT));
    if words.is_silent() {
        return;
    }
    if let Err(error) = tool.answer(&words, session.out) {
        write!(session.out, "{error}");
    }
    session.out.byte(b'\n');
}
