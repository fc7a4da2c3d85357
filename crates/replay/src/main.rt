// The desk tool replay: plays recorded nights again, from lines of HEX or from files, and writes what the unit did (docs/TOOLS.md).
#![tactic(auto)]

mod answer;
mod files;

use answer::put_trace;
use files::{answer_files, are_named};
use std::io;
use tool_text::input::Input;
use tool_text::line::{Form, Line};
use tool_text::line_error::{LineError, put_line_error};
use tool_text::output::Output;
use tool_text::session::Session;

// A trace has up to 1,048,576 bytes; the array has one byte more, so that a longer trace is detected.
// Kept: an array in place of a `Vec`, since the tool works in constant memory and allocates nothing (docs/DECISIONS.md, 173)
pub type Trace = [u8; 1048577];

pub const LONGEST: usize = 1048576;

// A command and HEX.
const FORM: Form = Form {
    hex_at: 1,
    is_word: false,
    apart: None,
};

// The trace of the command `trace HEX`.
fn trace_of<'a>(line: Line, bytes: &'a [u8]) -> Result<&'a [u8], LineError> {
    if !line.head.command.is(b"trace") {
        return Err(LineError::Command);
    }
    let len = line.tail.hex.payload().ok_or(LineError::Hex)?;
    Ok(tool_text::first(bytes, len))
}

// Answers the next line; an empty one and a comment are not answered.
fn answer_line(session: &mut Session, bytes: &mut Trace) {
    let line = session.next(FORM, bytes);
    if line.is_silent() {
        return;
    }
    match trace_of(line, bytes) {
        Ok(trace) => put_trace(session.out, trace),
        Err(error) => put_line_error(session.out, error),
    }
    session.out.byte(b'\n');
}

fn main(rt: HostRuntime) -> io::Result<()> {
    let mut trace: Trace = [0u8; 1048577];
    let mut out = Output::new(rt.stdout());
    if are_named(&rt) {
        return answer_files(&rt, &mut out, &mut trace);
    }
    let mut input = Input::new(rt.stdin());
    let session = Session::begin(
        &rt,
        &mut input,
        &mut out,
        "replay: what a unit did in a recorded night (docs/TOOLS.md).\n\
trace HEX; or replay FILE .., each file a recorded trace\n",
    );
    session.run(|session| answer_line(session, &mut trace))
}
