// How answers are written.
use address_journal::{ResumeError, holder_of};
use address_ledger::Ledger;
use refusal::Refusal;
use tool_notation::put_refusal;
use tool_text::output::{ByteString, Output};

// An address, as granted h'1000'.
pub fn put_address(out: &mut Output, name: &str, answer: Result<u16, Refusal>) {
    match answer {
        Ok(address) => write!(out, "{name} {}", ByteString(&address.to_be_bytes())),
        Err(refusal) => put_refusal(out, refusal),
    }
}

// A number of addresses, as free 3.
pub fn put_count(out: &mut Output, name: &str, answer: Result<usize, Refusal>) {
    match answer {
        Ok(count) => write!(out, "{name} {count}"),
        Err(refusal) => put_refusal(out, refusal),
    }
}

// The ledger, as first=4096 size=3 free=2 marks=[0].
pub fn put_ledger(out: &mut Output, ledger: Ledger) {
    write!(
        out,
        "first={} size={} free={} marks=",
        ledger.first, ledger.size, ledger.free
    );
    put_groups(out, ledger.summary);
}

// The marked groups, with commas between them.
fn put_groups(out: &mut Output, marks: u64) {
    out.byte(b'[');
    let marked = (0..64).filter(|group| (marks >> *group) & 1 == 1);
    for (i, group) in marked.enumerate() {
        if 0 < i {
            out.byte(b',');
        }
        write!(out, "{group}");
    }
    out.byte(b']');
}

// A journal that is refused, and the offset of the first byte that is not whole.
pub fn put_damage(out: &mut Output, error: ResumeError, offset: usize) {
    let name = match error {
        ResumeError::Damaged => "DAMAGED",
        ResumeError::Refused(_) => "RANGE",
    };
    write!(out, "refused {} {name} at={offset}\n", error.number());
}

// The board that holds an address, as held h'0102030405060708'.
pub fn put_holder(out: &mut Output, holder: Result<[u8; 8], Refusal>) {
    match holder {
        Ok(board) => write!(out, "held {}", ByteString(&board)),
        Err(refusal) => put_refusal(out, refusal),
    }
}

// Every address that is held with its board, as list [h'1000'=h'0102030405060708'], the lowest first.
pub fn put_list(out: &mut Output, ledger: Ledger, memory: &[u8]) {
    write!(out, "list [");
    let mut comma = "";
    for address in 0..=u16::MAX {
        if let Ok(board) = holder_of(ledger, memory, usize::from(address)) {
            let name = address.to_be_bytes();
            write!(out, "{comma}{}={}", ByteString(&name), ByteString(&board));
            comma = ",";
        }
    }
    out.byte(b']');
}
