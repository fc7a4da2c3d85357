// Answers, gathered in a buffer and written to standard output when it is full and when it is flushed.
ghost use Rattle.std.specs.Prelude.{◌≡◌, ◌≤◌};

use crate::first;
use std::fmt::{Display, Formatter, Write};
use std::io::{ErrorKind, Print, Stdout};
use std::{fmt, io};

#[derive(Drop)]
pub struct Output {
    // where answers are written
    to: Stdout,
    // Kept: a length beside the buffer, since a `BufWriter` allocates and a write that failed is told at the end alone
    waiting: [u8; 65536],
    len: usize,
    // why a write failed, once one did: nothing is written from then on
    failure: Option<io::Error>,
    ghost in_bounds: { len ≤ 65536 },
}

impl Output {
    pub fn new(to: Stdout) -> Output {
        Output {
            to,
            waiting: [0; 65536],
            len: 0,
            failure: None,
        }
    }

    // False once a write failed.
    pub fn is_open(&self) -> bool {
        self.failure.is_none()
    }

    // Writes what waits.
    pub fn flush(&mut self)
        ensures { self.new.len ≡ 0 }
    {
        if self.failure.is_none() {
            self.failure = self.to.write_all(first(&self.waiting, self.len)).err();
        }
        self.len = 0;
    }

    // Writes what waits, as the last of all. The error is that of the first write that failed, unless nobody reads what is written.
    pub fn end(&mut self) -> io::Result<()> {
        self.flush();
        let failure = self.failure;
        match failure {
            Some(error) if error.kind() != ErrorKind::BrokenPipe => Err(error),
            _ => Ok(()),
        }
    }

    // The bytes as they are.
    pub fn text(&mut self, text: &[u8]) {
        for b in text {
            self.byte(*b);
        }
    }

    pub fn byte(&mut self, b: u8) {
        if self.len == self.waiting.len() {
            self.flush();
        }
        self.waiting[self.len] = b;
        self.len += 1;
    }

    // What `write!` calls. It answers nothing, since a write that failed is told at the end.
    pub fn write_fmt<D: Display + Drop>(&mut self, value: D)
        ensures { self.new.len ≤ 65536 }
    {
        let _ = self.write(value);
    }
}

impl Write for Output {
    fn write_str(&mut self, text: &str) -> fmt::Result {
        self.text(text.as_bytes());
        Ok(())
    }
}

// A byte string in CBOR's diagnostic notation, as h'cafe'.
#[derive(Clone, Copy)]
pub struct ByteString<'a>(pub &'a [u8]);

impl Display for ByteString<'_> {
    fn fmt<W: Write>(&self, f: &mut Formatter<W>) -> fmt::Result {
        f.write_str("h'")?;
        for b in self.0 {
            f.write_str(digit(b / 16))?;
            f.write_str(digit(b % 16))?;
        }
        f.write_str("'")
    }
}

// A hexadecimal digit, in lower case. (`{:02x}` took three times the time.)
fn digit(value: u8) -> &'static str {
    match value {
        0 => "0",
        1 => "1",
        2 => "2",
        3 => "3",
        4 => "4",
        5 => "5",
        6 => "6",
        7 => "7",
        8 => "8",
        9 => "9",
        10 => "a",
        11 => "b",
        12 => "c",
        13 => "d",
        14 => "e",
        _ => "f",
    }
}
