// The ledger made again from a journal, record by record and in constant memory.
ghost use Rattle.std.specs.Prelude.{◌≡◌, ◌+◌, ◌*◌, ◌≤◌, length};
ghost use Rattle.address_ledger.specs.Ledger.{outcome, opened};
ghost use Rattle.address_journal.specs.Format.{board_in, two_at, header_check};
ghost use Rattle.address_journal.specs.Entry.{written};
ghost use Rattle.address_journal.specs.Resume.{error_number, step_number, resumed, entry_here, outcome_here};
ghost use Rattle.address_journal.specs.Resume.{opened_as, resume_record, resume_header};

use crate::due::{Entry, back_due, entry_of, grant_due};
use crate::format::{header_check, header_of};
use address_ledger::{CallResult, Ledger};
use byte_io::same_bytes;
use refusal::Refusal;

// The number of damage: our own, no paper has it.
pub const DAMAGED: u8 = 23;

// What came of the next 16 bytes. Taken: they are in the ledger. Cut: a record that was never whole, which may only end a journal.
#[derive(Clone, Copy)]
pub enum ResumeStep {
    Taken,
    Cut,
}

// Why the next 16 bytes are neither. Damaged: another program or a fault wrote them. Refused: the header's range does not open over the
// memory.
#[derive(Clone, Copy)]
pub enum ResumeError {
    Damaged,
    Refused(Refusal),
}

impl ResumeError {
    // The number of the error.
    pub fn number(self) -> u8
        ensures { result ≡ error_number self }
    {
        match self {
            ResumeError::Damaged => DAMAGED,
            ResumeError::Refused(refusal) => refusal.number(),
        }
    }
}

// The ledger so far, and the check that the next record continues.
// Kept: `resumed` of `resume_record` has ledger and check beside an error too, since only a record that is taken changes them.
#[derive(Clone, Copy)]
pub struct ResumeResult {
    pub step: Result<ResumeStep, ResumeError>,
    pub ledger: Ledger,
    pub check: u32,
}

impl ResumeResult {
    // The number of a step that refuses; 0 of one that does not.
    pub fn number(self) -> u8
        ensures { result ≡ step_number self.step }
    {
        match self.step {
            Ok(_) => 0,
            Err(error) => error.number(),
        }
    }
}

fn stopped(step: Result<ResumeStep, ResumeError>, ledger: Ledger, check: u32) -> ResumeResult
    ensures { result ≡ record { step = step; ledger = ledger; check = check } }
{
    ResumeResult {
        step,
        ledger,
        check,
    }
}

fn board_in(bytes: &[u8]) -> [u8; 8]
    requires { 16 ≤ length bytes.now }
    ensures { result ≡ board_in bytes.now }
{
    [
        bytes[1], bytes[2], bytes[3], bytes[4], bytes[5], bytes[6], bytes[7], bytes[8],
    ]
}

// The number in the two bytes from an offset on.
fn two_at(bytes: &[u8], offset: usize) -> u16
    requires { offset + 2 ≤ length bytes.now }
    ensures { result ≡ two_at bytes.now offset }
{
    u16::from_be_bytes([bytes[offset], bytes[offset + 1]])
}

// The entry of the call of this kind; other kinds have none.
fn entry_here(kind: u8, ledger: Ledger, memory: &[u8], board: [u8; 8], check: u32) -> Entry
    ensures { written result.due result.check ≡ entry_here kind ledger memory.now board check }
{
    if kind == 1 {
        return entry_of(1, board, check, grant_due(ledger, memory, &board));
    }
    if kind == 2 {
        return entry_of(2, board, check, back_due(ledger, memory, &board));
    }
    entry_of(0, board, check, None)
}

// Makes the call of this kind again.
fn call_here(kind: u8, ledger: Ledger, memory: &mut [u8], board: [u8; 8]) -> CallResult
    ensures { outcome result.answer result.ledger memory.new ≡ outcome_here kind ledger memory.old board }
{
    if kind == 1 {
        return ledger.grant(memory, board);
    }
    ledger.give_back(memory, board)
}

// The next 16 bytes of a journal, or what is left of it, after the record or the header with this check. Only a record that is taken
// changes anything.
pub fn resume_record(ledger: Ledger, memory: &mut [u8], check: u32, bytes: &[u8]) -> ResumeResult
    ensures { resumed result.step result.ledger result.check memory.new
        ≡ resume_record ledger memory.old check bytes.now }
{
    if bytes.len() < 16 {
        return stopped(Ok(ResumeStep::Cut), ledger, check);
    }
    if same_bytes(bytes, &[0u8; 16]) {
        return stopped(Ok(ResumeStep::Cut), ledger, check);
    }
    let kind = bytes[0];
    let board = board_in(bytes);
    let entry = entry_here(kind, ledger, memory, board, check);
    let Some(own) = entry.due else {
        return stopped(Err(ResumeError::Damaged), ledger, check);
    };
    if same_bytes(bytes, &own) {
        let done = call_here(kind, ledger, memory, board);
        return stopped(Ok(ResumeStep::Taken), done.ledger, entry.check);
    }
    stopped(Err(ResumeError::Damaged), ledger, check)
}

// The ledger of a header's range is opened.
fn begin(first: u16, size: u16, memory: &[u8]) -> ResumeResult
    ensures { resumed result.step result.ledger result.check memory.now
        ≡ opened_as (header_check first size) memory.now (opened first size memory.now) }
{
    let next = header_check(first, size);
    let opened = Ledger::open(first as usize, size as usize, memory);
    match opened.verdict {
        Ok(()) => stopped(Ok(ResumeStep::Taken), opened.ledger, next),
        Err(refusal) => stopped(Err(ResumeError::Refused(refusal)), Ledger::EMPTY, 0),
    }
}

// The first 16 bytes of a journal, over the memory in which the ledger is made again.
pub fn resume_header(memory: &[u8], header: &[u8]) -> ResumeResult
    ensures { resumed result.step result.ledger result.check memory.now ≡ resume_header memory.now header.now }
{
    if header.len() < 16 {
        return stopped(Ok(ResumeStep::Cut), Ledger::EMPTY, 0);
    }
    if same_bytes(header, &[0u8; 16]) {
        return stopped(Ok(ResumeStep::Cut), Ledger::EMPTY, 0);
    }
    let first = two_at(header, 6);
    let size = two_at(header, 8);
    if same_bytes(header, &header_of(first, size)) {
        return begin(first, size, memory);
    }
    stopped(Err(ResumeError::Damaged), Ledger::EMPTY, 0)
}
