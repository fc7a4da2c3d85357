// Standard input, read through a buffer and taken part by part, each part within a line.
ghost use Rattle.std.specs.Prelude.{◌≡◌, ◌≤◌, ◌<◌, ◌+◌, true, length};

use std::io;
use std::io::{Read, Stdin};

#[derive(Clone, Copy)]
pub struct Input {
    // from where is read
    from: Stdin,
    // why the last read failed, if it did
    failure: Option<io::Error>,
    // Kept: a length beside the buffer, since a `BufReader` allocates and a carriage return that waits is put before what comes
    bytes: [u8; 65536],
    // which of them were read and not yet taken
    at: usize,
    end: usize,
    ghost ordered: { at ≤ end },
    ghost in_bounds: { end ≤ 65536 },
}

// What the buffer has of a line, how many bytes that takes, and whether the line ends there.
#[derive(Clone, Copy)]
pub struct Part<'a> {
    pub text: &'a [u8],
    pub taken: usize,
    pub complete: bool,
}

impl Input {
    pub fn new(from: Stdin) -> Input {
        Input {
            from,
            failure: None,
            bytes: [0; 65536],
            at: 0,
            end: 0,
        }
    }

    // Reads on, where all was taken but perhaps a carriage return, which then stands before what comes. Nothing comes at the input's end,
    // or where it cannot be read. Whether anything came.
    pub fn fill(&mut self) -> bool {
        let waits = self.at < self.end;
        let got = match self.from.read(&mut self.bytes[1..]) {
            Ok(got) => got,
            Err(error) => {
                self.failure = Some(error);
                0
            }
        };
        self.at = 0;
        self.end = 0;
        if 0 < got {
            self.bytes[0] = b'\r';
            self.at = !waits as usize;
            self.end = got + 1;
        }
        0 < got
    }

    // The error of a read that failed, if one ended the input.
    pub fn outcome(&self) -> io::Result<()> {
        self.failure.map_or(Ok(()), Err)
    }

    // What the buffer has of the next line. A carriage return before the line's end is passed over; one at the end of what was read waits,
    // since more of the line may come.
    pub fn part(&self) -> Part<'_>
        ensures text { length result.text.now ≤ result.taken }
        ensures line_end { result.complete ≡ true → length result.text.now < result.taken }
        ensures in_bounds { self.now.at + result.taken ≤ self.now.end }
    {
        let unread = &self.bytes[self.at..self.end];
        match unread.iter().position(|b| *b == b'\n') {
            Some(stop) => Part {
                text: before_return(&unread[..stop]),
                taken: stop + 1,
                complete: true,
            },
            None => {
                let text = before_return(unread);
                Part {
                    text,
                    taken: text.len(),
                    complete: false,
                }
            }
        }
    }

    // Goes on behind so many bytes, as a part takes them.
    pub fn pass(&mut self, taken: usize)
        ensures { self.old.at + taken ≤ self.old.end → self.new.at ≡ self.old.at + taken }
    {
        self.at = self.at.saturating_add(taken).min(self.end);
    }
}

// The bytes without the carriage return that may end them.
fn before_return<'a>(bytes: &'a [u8]) -> &'a [u8]
    ensures { length result.now ≤ length bytes.now }
{
    bytes.strip_suffix(b"\r").unwrap_or(bytes)
}
