// The ledger of a session made again from its journal, 16 bytes at a time.
use crate::journal::{LONGEST, too_large};
use crate::memory::Memory;
use address_journal::{ResumeError, ResumeResult, ResumeStep, resume_header, resume_record};
use address_ledger::Ledger;
use std::fs::File;
use std::io;
use std::os::unix::fs::FileExt;

// Why a session does not go on with a journal.
#[derive(Clone, Copy)]
pub enum StartError {
    // the file cannot be read
    Failed(io::Error),
    // what stands at this offset is no record or header to resume from
    Refused(ResumeError, usize),
}

impl From<io::Error> for StartError {
    fn from(error: io::Error) -> StartError {
        StartError::Failed(error)
    }
}

// What was made again of a journal so far.
#[derive(Clone, Copy)]
pub struct Resumed {
    pub ledger: Ledger,
    pub check: u32,
    // how many bytes are whole
    pub whole: usize,
    // how many bytes follow them, of a record that was never whole
    pub cut: usize,
}

// Whether a journal has more records.
#[derive(Clone, Copy, PartialEq, Eq)]
enum Reading {
    GoesOn,
    Ended,
}

// The journal in a file, from its header to its end; the memory is that of a ledger without holders.
pub fn resume(file: &File, memory: &mut Memory) -> Result<Resumed, StartError> {
    let opened = Ledger::open(0, 0, b"");
    let mut resumed = Resumed {
        ledger: opened.ledger,
        check: 0,
        whole: 0,
        cut: 0,
    };
    let mut reading = resumed.read_header(file, memory)?;
    // Kept: a count, which is the form of a loop that reads to the end of its input
    for _ in 0..u64::MAX {
        if reading == Reading::Ended {
            return Ok(resumed);
        }
        reading = resumed.read_record(file, memory)?;
    }
    Err(StartError::Failed(too_large()))
}

impl Resumed {
    fn read_header(&mut self, file: &File, memory: &Memory) -> Result<Reading, StartError> {
        let mut bytes = [0u8; 16];
        let len = read_at(file, 0, &mut bytes)?;
        if 0 < len && !may_be_header(&bytes) {
            return Err(StartError::Refused(ResumeError::Damaged, 0));
        }
        let came = resume_header(memory, tool_text::first(&bytes, len));
        self.take(file, came, len)
    }

    fn read_record(&mut self, file: &File, memory: &mut Memory) -> Result<Reading, StartError> {
        let mut bytes = [0u8; 16];
        let len = read_at(file, self.whole, &mut bytes)?;
        let record = tool_text::first(&bytes, len);
        let came = resume_record(self.ledger, memory, self.check, record);
        self.take(file, came, len)
    }

    // Takes what 16 bytes, or what was left of the file, came to. A record that was never whole ends a journal: where bytes follow, it is
    // damaged.
    fn take(&mut self, file: &File, came: ResumeResult, len: usize) -> Result<Reading, StartError> {
        let end = self.whole.saturating_add(16);
        let more = follows(file, end)?;
        self.ledger = came.ledger;
        self.check = came.check;
        match came.step {
            Ok(ResumeStep::Taken) => {
                self.whole = end;
                Ok(Reading::GoesOn)
            }
            Ok(ResumeStep::Cut) if !more => {
                self.cut = len;
                Ok(Reading::Ended)
            }
            Ok(ResumeStep::Cut) => Err(StartError::Refused(ResumeError::Damaged, self.whole)),
            Err(error) => Err(StartError::Refused(error, self.whole)),
        }
    }
}

// Whether bytes that a header was cut to could be one, with zeros after them: no other file is cut to nothing.
fn may_be_header(bytes: &[u8; 16]) -> bool {
    bytes
        .iter()
        .zip(b"PHLJ".iter())
        .all(|(byte, letter)| byte == letter || *byte == 0)
}

// Reads bytes from an offset on.
fn read_at(file: &File, offset: usize, bytes: &mut [u8]) -> io::Result<usize> {
    if LONGEST < offset {
        return Err(too_large());
    }
    file.read_at(bytes, offset as u64)
}

// Whether the file has a byte at the offset.
fn follows(file: &File, offset: usize) -> io::Result<bool> {
    let mut byte = [0u8; 1];
    Ok(read_at(file, offset, &mut byte)? == 1)
}
