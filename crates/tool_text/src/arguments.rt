// What a tool's arguments ask for.
use crate::first;
use crate::word::Word;
use std::env::{Env, FillError};

#[derive(Clone, Copy, PartialEq, Eq)]
pub enum Mode {
    // answers alone
    Answers,
    // each line, and then its answer
    Echo,
    // what the tool does, and nothing else
    Help,
}

impl Mode {
    // No argument asks for answers, `--echo` alone for the lines too; `--help`, or any other arguments, for help.
    pub fn asked(rt: &impl Env) -> Mode {
        if !is_given(rt, 1) {
            return Mode::Answers;
        }
        if !is_given(rt, 2) && argument(rt, 1).is(b"--echo") {
            return Mode::Echo;
        }
        Mode::Help
    }
}

// Whether the tool was started with this argument.
pub fn is_given(rt: &impl Env, i: usize) -> bool {
    let mut letters = [0u8; 16];
    !matches!(rt.arg(i, &mut letters), Err(FillError::NotPresent))
}

// The argument as a word; one of more than 16 letters is like no option.
pub fn argument(rt: &impl Env, i: usize) -> Word {
    let mut letters = [0u8; 16];
    match rt.arg(i, &mut letters) {
        Ok(len) => Word::new().more(first(&letters, len)),
        Err(_) => Word::new(),
    }
}
