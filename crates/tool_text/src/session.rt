// A tool's session: what is kept from line to line, and how the next line is read.
use crate::arguments::Mode;
use crate::input::{Input, Part};
use crate::line::{Form, Line};
use crate::output::Output;
use std::env::Env;
use std::io;

#[derive(Drop)]
pub struct Session<'a> {
    // lent: they hold 65,536 bytes each, and every place that a session is moved to would take as much of the stack
    pub input: &'a mut Input,
    pub out: &'a mut Output,
    // whether each line is written before its answer
    pub echo: bool,
    // false once the input has ended or nobody reads the answers
    pub open: bool,
}

impl<'a> Session<'a> {
    // The session that the tool's arguments ask for. Where that is help, the help is written, and no line is read.
    pub fn begin(
        rt: &impl Env,
        input: &'a mut Input,
        out: &'a mut Output,
        help: &str,
    ) -> Session<'a> {
        let mode = Mode::asked(rt);
        let session = Session {
            input,
            out,
            echo: mode == Mode::Echo,
            open: mode != Mode::Help,
        };
        if mode == Mode::Help {
            put_help(session.out, help);
        }
        session
    }

    // Answers line after line until the input ends or nobody reads the answers, and writes what waits. The error is that of a write or a
    // read that failed.
    pub fn run<F: FnMut(&mut Session<'a>)>(mut self, mut answer_line: F) -> io::Result<()>
        requires { F.IsAlwaysCallable answer_line }
    {
        // Kept: a counted loop, since a loop over a session that has no end needs a `Wait` bound
        for _ in 0..u64::MAX {
            if !self.open {
                break;
            }
            answer_line(&mut self);
        }
        self.end()
    }

    // The next line, to its end or the input's; HEX goes to the payload.
    pub fn next(&mut self, form: Form, payload: &mut [u8]) -> Line {
        self.read_line(
            Line::new(),
            move |line, part| line.more(part, form, payload),
        )
    }

    // Reads the next line, to its end or the input's: what `more` makes of `line` with each part of it.
    pub fn read_line<L, F: FnMut(L, &[u8]) -> L>(&mut self, line: L, mut more: F) -> L
        requires { F.IsAlwaysCallable more }
    {
        let mut line = line;
        let mut begun = false;
        // Kept: a counted loop, since a line may have any length, and a loop that may have no end needs a `Wait` bound
        for _ in 0..u64::MAX {
            let Part {
                text,
                taken,
                complete,
            } = self.input.part();
            line = more(line, text);
            if self.echo {
                self.out.text(text);
            }
            begun = begun || !text.is_empty();
            self.input.pass(taken);
            if complete || !self.fill() {
                if complete || begun {
                    self.end_echo();
                }
                break;
            }
        }
        line
    }

    // Writes what waits, after the last line. The error is that of a write or a read that failed.
    pub fn end(&mut self) -> io::Result<()> {
        self.out.end()?;
        self.input.outcome()
    }

    // The end of the line, where lines are written.
    fn end_echo(&mut self) {
        if self.echo {
            self.out.byte(b'\n');
        }
    }

    // Reads more of the input; answers are written before it is asked for. Whether the session goes on.
    fn fill(&mut self) -> bool {
        self.out.flush();
        let came = self.input.fill();
        self.open = came && self.out.is_open();
        self.open
    }
}

// What the tool does, and what every tool's arguments are.
fn put_help(out: &mut Output, help: &str) {
    write!(
        out,
        "{help}Commands come from standard input, one to a line; each is answered by one line.\n\
--echo writes each line before its answer, --help this text.\n"
    );
}
