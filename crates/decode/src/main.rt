// The desk tool decode: reads join requests and configurations from lines of HEX, and writes what they say (docs/TOOLS.md).
#![tactic(auto)]

mod command;
mod configuration;
mod head;
mod merge;
mod parameter;
mod request;
mod rewrite;
mod serial;

use command::{Asking, Command, Object, Reading};
use serial::SerialInput;
use std::io;
use tool_text::first;
use tool_text::input::Input;
use tool_text::line::{Form, Line};
use tool_text::line_error::LineError;
use tool_text::output::Output;
use tool_text::session::Session;

// A command and HEX, or a word; `rewrite` has a reading before HEX.
const FORM: Form = Form {
    hex_at: 1,
    is_word: true,
    apart: Some(b"rewrite"),
};

// What is kept of HEX: two payloads, one byte more of each than it may have, which is enough to be answered LONG.
type Payloads = [u8; 514];

// Answers a command, or says what is wrong with the line.
fn answer(
    line: Line,
    payloads: &Payloads,
    input: &mut SerialInput,
    out: &mut Output,
) -> Result<(), LineError> {
    match Command::try_from(line)? {
        Command::Merge => merge::answer(line.tail, payloads, out)?,
        Command::Store(lent) => input.lend(lent, out),
        Command::End(reading) => input.end(reading, out),
        Command::Reset => input.reset(out),
        Command::OfHex(asking) => {
            let len = line.tail.hex.payload().ok_or(LineError::Hex)?;
            answer_hex(asking, first(payloads, len), input, out);
        }
    }
    Ok(())
}

fn answer_hex(asking: Asking, payload: &[u8], input: &mut SerialInput, out: &mut Output) {
    match asking {
        Asking::Head => head::answer(payload, out),
        Asking::Read(reading) => answer_object(reading, payload, out),
        Asking::Rewrite(reading) => rewrite::answer(reading, payload, out),
        Asking::Part => input.part(payload, out),
    }
}

// A payload is read as a join request, or else as a configuration.
fn answer_object(reading: Reading, payload: &[u8], out: &mut Output) {
    let Reading {
        object,
        version,
        strict,
    } = reading;
    match object {
        Object::Request => {
            let read = cojp_read::read_request(payload, version, strict);
            request::put_read(out, version, read);
        }
        Object::Configuration => {
            let read = cojp_read::read_configuration(payload, version, strict);
            configuration::put_read(out, version, read);
        }
    }
}

// Answers the next line; an empty one and a comment are not answered.
fn answer_line(session: &mut Session, payloads: &mut Payloads, input: &mut SerialInput) {
    let line = session.next(FORM, payloads);
    if line.is_silent() {
        return;
    }
    if let Err(error) = answer(line, payloads, input, session.out) {
        write!(session.out, "{error}");
    }
    session.out.byte(b'\n');
}

fn main(rt: HostRuntime) -> io::Result<()> {
    let mut input = Input::new(rt.stdin());
    let mut out = Output::new(rt.stdout());
    let session = Session::begin(
        &rt,
        &mut input,
        &mut out,
        "decode: what the payloads of join requests and configurations mean (docs/TOOLS.md).\n\
READING HEX: the object; rewrite READING HEX: the object, written again; head HEX: the first head.\n\
merge HEX + HEX: two configurations joined and written.\n\
part HEX, end READING, reset: a payload that comes in parts; store N: how many bytes are lent for it.\n\
READING is request or configuration, new-request or new-configuration (RFC 9031), with strict- before it if heads must be the shortest.\n",
    );
    let mut payloads = [0u8; 514];
    let mut serial = SerialInput::new();
    session.run(|session| answer_line(session, &mut payloads, &mut serial))
}
