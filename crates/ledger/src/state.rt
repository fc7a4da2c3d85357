// The programming fixture, as the tool plays it: its ledger, and what a command does to it.
use crate::answer::{put_address, put_count, put_holder, put_ledger, put_list};
use crate::commands::Command;
use crate::memory::{Memory, SIZE, write_bytes};
use address_journal::{held_address, holder_of};
use address_ledger::{CallResult, Ledger};
use tool_notation::put_refusal;
use tool_text::output::{ByteString, Output};

#[derive(Drop)]
pub struct LedgerState {
    // Kept: an array in place of a `Vec`, since the ledger works on lent memory of a fixed size and the tool stores nothing on the heap
    pub memory: Memory,
    pub ledger: Ledger,
    // how many bytes of the memory are lent
    lent: usize,
}

impl LedgerState {
    // Before the first accepted opening the ledger is that of first address 0 and size 0.
    pub fn new() -> LedgerState {
        let opened = Ledger::open(0, 0, b"");
        LedgerState {
            memory: [0; SIZE],
            ledger: opened.ledger,
            lent: 36864,
        }
    }

    // Carries the command out and writes its answer.
    pub fn carry_out(&mut self, command: Command, out: &mut Output) {
        match command {
            Command::Open(first, size) => self.open(first, size, out),
            Command::Grant(board) => self.call("granted", out, |ledger, memory| {
                ledger.grant(memory, board)
            }),
            Command::Back(board) => self.call("freed", out, |ledger, memory| {
                ledger.give_back(memory, board)
            }),
            Command::Lend(count) => {
                self.lent = count;
                write!(out, "lent {count}");
            }
            Command::Write(place, bytes) => {
                write_bytes(&mut self.memory, place, bytes);
                write!(out, "set");
            }
            Command::Clear => {
                self.memory.fill(0);
                write!(out, "set");
            }
            Command::Count(count) => {
                self.ledger.free = count;
                write!(out, "set");
            }
            Command::Marks(marks) => {
                self.ledger.summary = marks;
                write!(out, "set");
            }
            _ => self.answer(command, out),
        }
    }

    // Answers a command that changes nothing.
    pub fn answer(&self, command: Command, out: &mut Output) {
        match command {
            Command::Free => put_count(out, "free", self.ledger.free()),
            Command::Read(place, count) => {
                let bytes = tool_text::first(tool_text::rest(&self.memory, place), count);
                write!(out, "{}", ByteString(bytes));
            }
            Command::Show => put_ledger(out, self.ledger),
            Command::List => put_list(out, self.ledger, &self.memory),
            Command::Who(address) => {
                let holder = holder_of(self.ledger, &self.memory, usize::from(address));
                put_holder(out, holder);
            }
            Command::Holds(board) => {
                let held = held_address(self.ledger, &self.memory, &board);
                put_address(out, "holds", held);
            }
            _ => {}
        }
    }

    // A refused opening leaves the ledger as it was.
    fn open(&mut self, first: usize, size: usize, out: &mut Output) {
        let opened = Ledger::open(first, size, tool_text::first(&self.memory, self.lent));
        match opened.verdict {
            Err(refusal) => put_refusal(out, refusal),
            Ok(()) => {
                self.ledger = opened.ledger;
                put_count(out, "opened", self.ledger.free());
            }
        }
    }

    // A call of the ledger over the bytes that are lent, and the address that it answers.
    fn call<F: FnOnce(Ledger, &mut [u8]) -> CallResult>(
        &mut self,
        name: &str,
        out: &mut Output,
        call: F,
    )
        requires { F.IsAlwaysCallable call }
    {
        let lent = self.lent.min(SIZE);
        let called = call(self.ledger, &mut self.memory[..lent]);
        self.ledger = called.ledger;
        put_address(out, name, called.answer);
    }
}
