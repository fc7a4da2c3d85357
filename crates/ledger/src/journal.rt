// The journal of a session: the file that a call's record is appended to, and synced, before the call is answered.
use address_journal::{header_check, header_of};
use address_ledger::Ledger;
use std::fs::File;
use std::io;
use std::io::ErrorKind;
use std::os::unix::fs::FileExt;

// No journal is longer, in bytes.
pub const LONGEST: usize = 1099511627776;

#[derive(Drop)]
pub struct Journal {
    pub file: File,
    // how many bytes of the file are whole; 0 before the range is opened
    pub whole: usize,
    // the check that the next record continues
    pub check: u32,
}

impl Journal {
    // Writes a header for the range of this ledger.
    pub fn begin(&mut self, ledger: Ledger) -> io::Result<()> {
        let first = part_of_range(ledger.first)?;
        let size = part_of_range(ledger.size)?;
        self.append(&header_of(first, size), header_check(first, size))
    }

    // Writes 16 bytes more, and syncs the file. After an error nothing is answered: a failed sync is not tried again, since the system may
    // have dropped what it could not write.
    pub fn append(&mut self, bytes: &[u8; 16], check: u32) -> io::Result<()> {
        let whole = self.whole;
        if LONGEST < whole {
            return Err(too_large());
        }
        if self.file.write_at(bytes, whole as u64)? != 16 {
            return Err(io::Error::from(ErrorKind::WriteZero));
        }
        self.file.sync_data()?;
        self.whole = whole + 16;
        self.check = check;
        Ok(())
    }
}

// The first address or the size of a range, as a header has it.
fn part_of_range(number: usize) -> io::Result<u16> {
    u16::try_from(number).map_err(|_| too_large())
}

// That a journal, or a range, is larger than any.
pub fn too_large() -> io::Error {
    io::Error::from(ErrorKind::FileTooLarge)
}
