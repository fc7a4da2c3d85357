// Runs the crate tool_text over lines of standard input, and writes what it makes of each: how many words, the command's letters, the
// four numbers, and HEX from word 3 on. It is run with --echo. tools/test_text.py makes the input and what is to be written, by itself.
#![tactic(auto)]

use std::io;
use tool_text::decimal::Decimal;
use tool_text::hex::Hex;
use tool_text::input::Input;
use tool_text::line::{Form, Head, Line, Tail};
use tool_text::output::{ByteString, Output};
use tool_text::session::Session;
use tool_text::word::Word;

// A command, two numbers, and a third or HEX.
const FORM: Form = Form {
    hex_at: 3,
    is_word: true,
    apart: None,
};

fn put_number(out: &mut Output, number: Decimal) {
    match number {
        Decimal::Empty => write!(out, " empty"),
        Decimal::Number(value) => write!(out, " {value}"),
        Decimal::Fault => write!(out, " fault"),
    }
}

fn put_word(out: &mut Output, word: Word) {
    write!(out, " {}{}", word.len, ByteString(&word.letters));
}

fn put_hex(out: &mut Output, hex: Hex, payload: &[u8]) {
    match hex.payload() {
        Some(n) => write!(out, " {}", ByteString(tool_text::first(payload, n))),
        None => write!(out, " fault"),
    }
}

fn put_head(out: &mut Output, head: Head) {
    put_word(out, head.command);
    put_number(out, head.first);
    put_number(out, head.second);
}

fn put_tail(out: &mut Output, tail: Tail, payload: &[u8]) {
    put_number(out, tail.number);
    put_number(out, tail.next.number);
    put_word(out, tail.word);
    put_hex(out, tail.hex, payload);
}

// What the line has.
fn put_line(out: &mut Output, line: Line, payload: &[u8]) {
    write!(out, "{}", line.words());
    put_head(out, line.head);
    put_tail(out, line.tail, payload);
    write!(out, "\n");
}

// Answers the next line; an empty one and a comment are not answered.
fn answer_line(session: &mut Session, payload: &mut [u8; 257]) {
    let line = session.next(FORM, payload);
    if !line.is_silent() {
        put_line(session.out, line, payload);
    }
}

fn main(rt: HostRuntime) -> io::Result<()> {
    let mut payload = [0u8; 257];
    let mut input = Input::new(rt.stdin());
    let mut out = Output::new(rt.stdout());
    let session = Session::begin(
        &rt,
        &mut input,
        &mut out,
        "test_text: what the crate tool_text makes of lines.\n",
    );
    session.run(|session| answer_line(session, &mut payload))
}
