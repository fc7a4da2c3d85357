// The desk tool cipher: AES-128 and AES-CCM-16-64-128 by lines of standard input (docs/TOOLS.md).
#![tactic(auto)]

mod verb;

use refusal::Refusal;
use std::io;
use tool_text::first;
use tool_text::input::Input;
use tool_text::line_error::LineError;
use tool_text::output::{ByteString, Output};
use tool_text::session::Session;
use tool_words::line::{Tool, run};
use tool_words::words::Words;
use verb::Verb;

// What is kept from line to line: the destination, and how much of it is lent.
#[derive(Drop)]
struct Cipher {
    room: usize,
    destination: [u8; 512],
}

impl Tool for Cipher {
    const HEX_AT: usize = 4;

    fn answer(&mut self, words: &Words, out: &mut Output) -> Result<(), LineError> {
        let verb = Verb::try_from(words.command)?;
        verb.shape().judge(words)?;
        self.execute(verb, words, out);
        Ok(())
    }
}

impl Cipher {
    // Executes a command, which has its words.
    fn execute(&mut self, verb: Verb, words: &Words, out: &mut Output) {
        let [first, second, third, _] = &words.arguments;
        let text = words.payload();
        match verb {
            Verb::Block => {
                let sealed = aes::encrypt(first.array(), second.array());
                write!(out, "{}", ByteString(&sealed));
            }
            Verb::Expand => put_keys(out, aes::expand(first.array())),
            Verb::Substitute => put_entry(out, first.value()),
            Verb::Seal => {
                let dst = self.lent();
                let written = aes_ccm::seal(
                    first.array(),
                    second.array(),
                    third.bytes(),
                    text,
                    dst,
                );
                put_written(out, "sealed", written, dst);
            }
            Verb::Open => {
                let dst = self.lent();
                let written = aes_ccm::unseal(
                    first.array(),
                    second.array(),
                    third.bytes(),
                    text,
                    dst,
                );
                put_written(out, "opened", written, dst);
            }
            Verb::Room => {
                self.room = first.value() as usize;
                write!(out, "lent {}", self.room);
            }
            Verb::Destination => write!(out, "{}", ByteString(self.lent())),
        }
    }

    // What is lent of the destination.
    fn lent(&mut self) -> &mut [u8] {
        let room = self.room.min(self.destination.len());
        &mut self.destination[..room]
    }
}

// The round keys, with a space between two.
fn put_keys(out: &mut Output, keys: [[u8; 16]; 11]) {
    for (n, key) in keys.iter().enumerate() {
        if 0 < n {
            out.byte(b' ');
        }
        write!(out, "{}", ByteString(key));
    }
}

// An entry of the substitution list.
fn put_entry(out: &mut Output, number: u64) {
    let list = aes::substitution();
    let entry = list[(number % 256) as usize];
    write!(out, "{}", ByteString(&[entry]));
}

// What was written to the destination, or why nothing was.
fn put_written(out: &mut Output, word: &str, written: Result<usize, Refusal>, dst: &[u8]) {
    match written {
        Ok(len) => write!(out, "{word} {}", ByteString(first(dst, len))),
        Err(refusal) => tool_notation::put_refusal(out, refusal),
    }
}

fn main(rt: HostRuntime) -> io::Result<()> {
    let mut input = Input::new(rt.stdin());
    let mut out = Output::new(rt.stdout());
    let session = Session::begin(
        &rt,
        &mut input,
        &mut out,
        "cipher: AES-128 and AES-CCM-16-64-128 (docs/TOOLS.md).\n\
block KEY BLOCK, expand KEY, substitute N, seal KEY NONCE DATA HEX, open KEY NONCE DATA HEX, room N, destination\n",
    );
    let mut cipher = Cipher {
        room: 264,
        destination: [0; 512],
    };
    run(session, &mut cipher)
}
