// Scans the data item of each line of items.txt, `HEX N`, and prints what the item scan answers: 0, or the refusal's number.
// expected.sh makes the expected output from the file's last column.
#![tactic(auto)]

use std::fs::File;
use std::io::Read;
use std::{fs, io};
use tool_text::hex::Hex;
use tool_text::output::Output;
use tool_text::{first, split_word};

// What the item scan of the payload answers, in document 01's numbers. What is no HEX prints 255, which no scan answers.
fn scanned(hex: Hex, payload: &[u8]) -> u8 {
    let Some(n) = hex.payload() else {
        return 255;
    };
    match cbor::scan::scan(first(payload, n), false) {
        Ok(()) => 0,
        Err(refusal) => refusal.number(),
    }
}

// One line's answer; a comment has none.
fn answer(line: &[u8], out: &mut Output) {
    if line.is_empty() || line[0] == b'#' {
        return;
    }
    let (digits, _) = split_word(line);
    let mut payload = [0u8; 512];
    let hex = Hex::new().more(digits, &mut payload);
    write!(out, "{}\n", scanned(hex, &payload));
}

// Where the text is kept: `fs::read` would allocate, and docs/TRUST.md has this program without a heap.
type Text = [u8; 65536];

// How many bytes of the text a file has, to its end or the text's. One read may bring less than there is.
fn read_full(file: &mut File, text: &mut Text) -> io::Result<usize> {
    let mut len = 0;
    // Kept: a count, which is the form of a loop that reads to the end of its input
    for _ in 0..u64::MAX {
        if 65536 <= len {
            break;
        }
        let got = file.read(&mut text[len..])?;
        if got == 0 {
            break;
        }
        len += got;
    }
    Ok(len)
}

fn main(rt: HostRuntime) -> io::Result<()> {
    let mut file = fs::open(&rt, "items.txt")?;
    let mut text = [0u8; 65536];
    let len = read_full(&mut file, &mut text)?;
    let mut out = Output::new(rt.stdout());
    for line in first(&text, len).split(|b| *b == b'\n') {
        answer(line, &mut out);
    }
    out.end()
}
