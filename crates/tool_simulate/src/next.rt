// The commands of a session, line after line.
use crate::command::{Command, command_of};
use tool_text::line::Form;
use tool_text::line_error::LineError;
use tool_text::session::Session;

// A command, two numbers, and a third or HEX.
const FORM: Form = Form {
    hex_at: 3,
    is_word: true,
    apart: None,
};

// What the next line asks for; HEX goes to the payload.
pub fn next_command(
    session: &mut Session,
    payload: &mut [u8],
) -> Result<Option<Command>, LineError> {
    command_of(session.next(FORM, payload))
}
