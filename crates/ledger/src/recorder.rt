// A fixture with a journal: each change is in the file, and synced, before it is answered.
use crate::answer::{put_address, put_count};
use crate::commands::Command;
use crate::journal::Journal;
use crate::state::LedgerState;
use address_journal::{Part, RecordedCall, part_of};
use address_ledger::Ledger;
use std::io;
use tool_notation::put_refusal;
use tool_text::output::Output;

// Which fixture this is, of how many that share a range.
#[derive(Clone, Copy)]
pub struct Share {
    pub fixture: usize,
    pub fixtures: usize,
}

#[derive(Drop)]
pub struct Recorder {
    pub journal: Journal,
    // which part of a range the fixture has
    pub share: Share,
}

impl Recorder {
    // Carries the command out and writes its answer. Bench commands change the memory beside the journal, so they are refused. The error is
    // that of a journal that was not written; then there is no answer.
    pub fn carry_out(
        &mut self,
        state: &mut LedgerState,
        command: Command,
        out: &mut Output,
    ) -> io::Result<()> {
        match command {
            Command::Open(first, size) => self.open(state, first, size, out)?,
            Command::Grant(board) => self.call(state, "granted", out, |ledger, memory, check| {
                address_journal::grant(ledger, memory, board, check)
            })?,
            Command::Back(board) => self.call(state, "freed", out, |ledger, memory, check| {
                address_journal::give_back(ledger, memory, board, check)
            })?,
            Command::Lend(_)
            | Command::Write(_, _)
            | Command::Clear
            | Command::Count(_)
            | Command::Marks(_) => write!(out, "error journal"),
            _ => state.answer(command, out),
        }
        Ok(())
    }

    // The range of a new journal, or a fixture's part of it; of another journal the range must be the same.
    fn open(
        &mut self,
        state: &mut LedgerState,
        first: usize,
        size: usize,
        out: &mut Output,
    ) -> io::Result<()> {
        let share = self.share;
        let part = part_of(first, size, share.fixture, share.fixtures);
        if self.journal.whole == 0 {
            return self.begin(state, part, out);
        }
        let ledger = state.ledger;
        if ledger.first == part.first && ledger.size == part.size {
            put_count(out, "opened", ledger.free());
        } else {
            write!(out, "error range");
        }
        Ok(())
    }

    // A new journal: its header is in the file before the range is opened.
    fn begin(&mut self, state: &mut LedgerState, part: Part, out: &mut Output) -> io::Result<()> {
        let opened = Ledger::open(part.first, part.size, &state.memory);
        let verdict = opened.verdict;
        match verdict {
            Err(refusal) => put_refusal(out, refusal),
            Ok(()) => {
                self.journal.begin(opened.ledger)?;
                state.ledger = opened.ledger;
                put_count(out, "opened", state.ledger.free());
            }
        }
        Ok(())
    }

    // A call of the ledger, and the address that it answers.
    fn call<F: FnOnce(Ledger, &mut [u8], u32) -> RecordedCall>(
        &mut self,
        state: &mut LedgerState,
        name: &str,
        out: &mut Output,
        call: F,
    ) -> io::Result<()>
        requires { F.IsAlwaysCallable call }
    {
        let called = call(state.ledger, &mut state.memory, self.journal.check);
        if let Some(bytes) = called.due {
            self.journal.append(&bytes, called.check)?;
        }
        state.ledger = called.ledger;
        put_address(out, name, called.answer);
        Ok(())
    }
}
