// How a session with a journal starts: the lock, the file, and what is made again from it.
use crate::answer::put_damage;
use crate::journal::{Journal, LONGEST, too_large};
use crate::recorder::Share;
use crate::resuming::{Resumed, StartError, resume};
use crate::state::LedgerState;
use address_ledger::range::count;
use std::env::Env;
use std::fs::{File, Files, OpenOptions};
use std::io::ErrorKind;
use std::{fs, io, str};
use tool_numerals::decimal::Decimal;
use tool_text::arguments::{argument, is_given};
use tool_text::output::{ByteString, Output};

pub type Path = [u8; 4096];

// A path that leaves room for what is put after it.
const LONGEST_PATH: usize = 4000;

// The path after `--journal`, the first argument; none if the arguments are others.
pub fn journal_path<'a>(rt: &impl Env, path: &'a mut Path) -> io::Result<Option<&'a str>> {
    if !argument(rt, 1).is(b"--journal") {
        return Ok(None);
    }
    let len = rt.arg(2, path).unwrap_or(0);
    if len == 0 || LONGEST_PATH < len {
        return Ok(None);
    }
    match str::from_utf8(tool_text::first(path, len)) {
        Ok(text) => Ok(Some(text)),
        Err(_) => Err(io::Error::new(
            ErrorKind::InvalidInput,
            "the path of the journal is no UTF-8 text",
        )),
    }
}

// Whether the lines are to be written too.
pub fn is_echo_asked(rt: &impl Env) -> bool {
    argument(rt, 3).is(b"--echo") && !is_given(rt, 4)
}

// A range that is not shared.
const WHOLE: Share = Share {
    fixture: 1,
    fixtures: 1,
};

// The numbers after `--fixture`, the third argument; without it the range is not shared. No fixture has the number 0, which stands for an
// argument that is no number.
pub fn share_asked(rt: &impl Env) -> Share {
    if argument(rt, 3).is(b"--fixture") && is_given(rt, 5) && !is_given(rt, 6) {
        return Share {
            fixture: number(rt, 4).unwrap_or(0),
            fixtures: number(rt, 5).unwrap_or(0),
        };
    }
    WHOLE
}

// The argument as a number.
fn number(rt: &impl Env, i: usize) -> Option<usize> {
    let mut digits = [0u8; 16];
    let len = rt.arg(i, &mut digits).ok()?;
    let number = Decimal::Empty.more(tool_text::first(&digits, len));
    Some(number.value()? as usize)
}

// Opens the journal, or makes an empty one; its folder is synced then.
fn open_file(rt: &impl Files<File = File>, path: &str, folder: &str) -> io::Result<File> {
    match open_update(rt, path) {
        Ok(file) => Ok(file),
        Err(error) => {
            if error.kind() != ErrorKind::NotFound {
                return Err(error);
            }
            let made = OpenOptions::new()
                .write(true)
                .create_new(true)
                .open(rt, path)?;
            drop(made);
            sync_folder(rt, folder)?;
            open_update(rt, path)
        }
    }
}

// The file as it stands, for reading and writing.
fn open_update(rt: &impl Files<File = File>, path: &str) -> io::Result<File> {
    OpenOptions::new().read(true).write(true).open(rt, path)
}

fn sync_folder(rt: &impl Files<File = File>, folder: &str) -> io::Result<()> {
    let file = fs::open(rt, folder)?;
    file.sync_all()
}

// Resumes the journal with this path; none where it is refused, and then the reason is written. What a cut left is dropped, and the file is
// synced: its last record may have been written by a process that ended before its sync. Where the file cannot be used, the error says why.
pub fn start(
    rt: &impl Files<File = File>,
    path: &str,
    folder: &str,
    state: &mut LedgerState,
    out: &mut Output,
) -> io::Result<Option<Journal>> {
    let file = open_file(rt, path, folder)?;
    match resume(&file, &mut state.memory) {
        Ok(resumed) => {
            let journal = resumed_journal(file, resumed)?;
            put_resumed(out, resumed);
            state.ledger = resumed.ledger;
            Ok(Some(journal))
        }
        Err(StartError::Refused(error, offset)) => {
            put_damage(out, error, offset);
            Ok(None)
        }
        Err(StartError::Failed(error)) => Err(error),
    }
}

fn resumed_journal(file: File, resumed: Resumed) -> io::Result<Journal> {
    if LONGEST < resumed.whole {
        return Err(too_large());
    }
    if 0 < resumed.cut {
        file.set_len(resumed.whole as u64)?;
    }
    file.sync_all()?;
    Ok(Journal {
        file,
        whole: resumed.whole,
        check: resumed.check,
    })
}

// What was dropped, and what was made again; nothing of a journal without a range.
fn put_resumed(out: &mut Output, resumed: Resumed) {
    if 0 < resumed.cut {
        write!(out, "dropped bytes={} at={}\n", resumed.cut, resumed.whole);
    }
    if resumed.whole == 0 {
        return;
    }
    let ledger = resumed.ledger;
    let held = count(ledger.first, ledger.size).saturating_sub(ledger.free);
    write!(
        out,
        "resumed first={} size={} held={held} free={} check={}\n",
        ledger.first,
        ledger.size,
        ledger.free,
        ByteString(&resumed.check.to_be_bytes())
    );
}
