// The desk tool ledger: one ledger of short addresses over one memory, called by lines of standard input (docs/TOOLS.md).
#![tactic(auto)]

mod answer;
mod commands;
mod journal;
mod memory;
mod recorder;
mod resuming;
mod start;
mod state;

use crate::commands::{Board, Bytes, command_of, next_line};
use recorder::Recorder;
use start::{is_echo_asked, journal_path, share_asked, start};
use state::LedgerState;
use std::env::Env;
use std::fs::{File, Files};
use std::{fs, io};
use tool_text::input::Input;
use tool_text::line_error::put_line_error;
use tool_text::output::Output;
use tool_text::session::Session;

// What is kept from line to line.
#[derive(Drop)]
struct Tool {
    state: LedgerState,
    // what keeps the journal, if the session has one
    recorder: Option<Recorder>,
    board: Board,
    hex: Bytes,
}

impl Tool {
    fn new() -> Tool {
        Tool {
            state: LedgerState::new(),
            recorder: None,
            board: [0; 9],
            hex: [0; 40001],
        }
    }

    // Answers the next line; an empty one and a comment are not answered. The error is that of a journal that was not written.
    fn answer_line(&mut self, session: &mut Session) -> io::Result<()> {
        let line = next_line(session, &mut self.board, &mut self.hex);
        if line.is_silent() {
            return Ok(());
        }
        match command_of(line, &self.board, &self.hex) {
            Err(error) => put_line_error(session.out, error),
            Ok(command) => match &mut self.recorder {
                None => self.state.carry_out(command, session.out),
                Some(recorder) => recorder.carry_out(&mut self.state, command, session.out)?,
            },
        }
        session.out.byte(b'\n');
        Ok(())
    }
}

// Answers line after line until the input ends, nobody reads the answers or the journal is not written.
fn run(rt: &impl Eprint, session: Session, tool: &mut Tool) -> io::Result<()> {
    let mut recorded = Ok(());
    let mut told = Ok(());
    let ended = session.run(|session| {
        if let Err(error) = tool.answer_line(session) {
            told = eprintln!(rt;
                "ledger: the journal was not written, the last command is not answered, and the session ends: {error}"
            );
            recorded = Err(error);
            session.open = false;
        }
    });
    ended?;
    told?;
    recorded
}

// A session without a journal.
fn plain_session(
    rt: &(impl Env + Eprint),
    input: &mut Input,
    out: &mut Output,
    tool: &mut Tool,
) -> io::Result<()> {
    let session = Session::begin(
        rt,
        input,
        out,
        "ledger: short addresses granted to boards and given back (docs/TOOLS.md).\n\
open FIRST SIZE, grant BOARD, back BOARD, free, list, who ADDRESS, holds BOARD,\n\
lend N, read PLACE N, write PLACE HEX, clear, count N, marks G.., show\n\
--journal FILE keeps every change in FILE and resumes from it; --echo or --fixture K N may follow.\n",
    );
    run(rt, session, tool)
}

// A session over the journal with this path, whose lock is taken. Where the file cannot be used, the reason goes to standard error, and no
// line is read.
fn journal_session(
    rt: &(impl Env + Files<File = File> + Eprint),
    path: &str,
    folder: &str,
    input: &mut Input,
    out: &mut Output,
    tool: &mut Tool,
) -> io::Result<()> {
    match start(rt, path, folder, &mut tool.state, out) {
        Err(error) => {
            eprintln!(rt; "{path}: {error}")?;
            Err(error)
        }
        Ok(journal) => {
            let session = Session {
                input,
                out,
                echo: is_echo_asked(rt),
                open: journal.is_some(),
            };
            let share = share_asked(rt);
            tool.recorder = journal.map(|journal| Recorder { journal, share });
            run(rt, session, tool)
        }
    }
}

// Takes the lock of a journal, a folder that only one process can make, or says why there is none to make.
fn take_lock(rt: &(impl Files + Eprint), lock: &str) -> io::Result<()> {
    match fs::create_dir(rt, lock) {
        Ok(()) => Ok(()),
        Err(error) => {
            eprintln!(rt; "{lock}: {error}")?;
            eprintln!(rt;
                "ledger: the journal is in use, or its last session was cut off. If no ledger runs on it, remove the folder with rmdir."
            )?;
            Err(error)
        }
    }
}

fn main(rt: HostRuntime) -> io::Result<()> {
    let mut path = [0u8; 4096];
    let mut input = Input::new(rt.stdin());
    let mut out = Output::new(rt.stdout());
    let mut tool = Tool::new();
    let Some(path) = journal_path(&rt, &mut path)? else {
        return plain_session(&rt, &mut input, &mut out, &mut tool);
    };
    let lock = format!(in rt.alloc(); "{path}.lock")?;
    let folder = format!(in rt.alloc(); "{lock}/..")?;
    take_lock(&rt, lock.as_str())?;
    let ended = journal_session(&rt, path, folder.as_str(), &mut input, &mut out, &mut tool);
    let released = fs::remove_dir(&rt, lock.as_str());
    ended?;
    released
}
