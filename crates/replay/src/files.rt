// Nights from files: each argument names one.
use crate::Trace;
use crate::answer::put_trace;
use std::env::Env;
use std::fs::Files;
use std::io::Read;
use std::{fs, io, str};
use tool_text::arguments::is_given;
use tool_text::line_error::{LineError, put_line_error};
use tool_text::output::Output;

// Whether the arguments name files: there are some, and the first does not begin as an option does.
pub fn are_named(rt: &impl Env) -> bool {
    let mut letter = [0u8; 1];
    let _ = rt.arg(1, &mut letter);
    letter[0] != b'-' && is_given(rt, 1)
}

// Answers each file that the arguments name, one line to each.
pub fn answer_files(
    rt: &(impl Env + Files),
    out: &mut Output,
    trace: &mut Trace,
) -> io::Result<()> {
    // Kept: a count, since std's iterator of arguments allocates a text for each
    for i in 1..usize::MAX {
        if !is_given(rt, i) {
            break;
        }
        match read_file(rt, i, trace) {
            Some(len) => put_trace(out, tool_text::first(trace, len)),
            None => put_line_error(out, LineError::File),
        }
        out.byte(b'\n');
    }
    out.end()
}

// How many bytes of the file that the argument names were read, as far as the trace has room; none where there is no such file, or it
// cannot be read.
fn read_file(rt: &(impl Env + Files), i: usize, trace: &mut [u8]) -> Option<usize> {
    let mut path = [0u8; 4096];
    let len = rt.arg(i, &mut path).ok()?;
    let path = str::from_utf8(tool_text::first(&path, len)).ok()?;
    let mut file = fs::open(rt, path).ok()?;
    read_whole(&mut file, trace).ok()
}

// What a file has, to its end or the trace's. One read may bring less than there is.
fn read_whole(file: &mut impl Read, trace: &mut [u8]) -> io::Result<usize> {
    let mut len = 0;
    // Kept: a count, which is the form of a loop that reads to the end of its input
    for _ in 0..u64::MAX {
        if trace.len() <= len {
            break;
        }
        let got = file.read(&mut trace[len..])?;
        if got == 0 {
            break;
        }
        len += got;
    }
    Ok(len)
}
