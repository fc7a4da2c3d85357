// One report of an unsupported configuration (RFC 9031): a code, a label and any item.
ghost use Rattle.std.specs.Prelude.{◌∷◌, ◌<◌, drop};
ghost use Rattle.cojp.specs.Bytes.{members_at};
ghost use Rattle.cojp.specs.Lists.{error_reports_in};
ghost use Rattle.cojp_list.specs.Gathered.{IntegerAt, AnyAt, ErrorEntryAt, signed};

use cbor::scan::skip_item;
use cbor::{Value, value_at};

// An integer: -1 - `number` where it is negative.
#[derive(Clone, Copy)]
pub(crate) struct Integer {
    pub negative: bool,
    pub number: u64,
}

// Where the bytes go on, and how many members are left there.
#[derive(Clone, Copy)]
struct Position {
    next: usize,
    left: u64,
}

// A report: its code, its label, and where the bytes go on after it.
#[derive(Clone, Copy)]
pub(crate) struct ErrorEntry {
    pub code: Integer,
    pub label: Integer,
    pub next: usize,
    pub left: u64,
}

// The integer at a place, where `left` members are left, and where the bytes go on after it.
fn integer_at(s: &[u8], at: usize, left: u64) -> Option<(Integer, usize)>
    ensures { IntegerAt s.now at left result }
{
    if left == 0 {
        return None;
    }
    match value_at(s, at) {
        Value::Number { number, next } => {
            let integer = Integer {
                negative: false,
                number,
            };
            Some((integer, next))
        }
        Value::Minus { number, next } => {
            let integer = Integer {
                negative: true,
                number,
            };
            Some((integer, next))
        }
        _ => None,
    }
}

// Any member is passed over; what cannot be read is the last.
fn pass_over(s: &[u8], at: usize, left: u64) -> Position
    requires { 0 < left }
    ensures { AnyAt s.now at left result }
{
    match skip_item(s, at, 6, false) {
        Ok(next) => Position {
            next,
            left: left - 1,
        },
        Err(_) => Position { next: at, left: 0 },
    }
}

// The rest of a report after its code.
fn after_code(s: &[u8], at: usize, left: u64, code: Integer) -> Option<ErrorEntry>
    ensures { ErrorEntryAt s.now left (error_reports_in (signed code ∷ members_at left (drop at s.now))) result }
{
    let (label, next) = integer_at(s, at, left)?;
    if left == 1 {
        return None;
    }
    let rest = pass_over(s, next, left - 1);
    Some(ErrorEntry {
        code,
        label,
        next: rest.next,
        left: rest.left,
    })
}

// The report at a place.
pub(crate) fn error_entry_at(s: &[u8], at: usize, left: u64) -> Option<ErrorEntry>
    requires { 0 < left }
    ensures { ErrorEntryAt s.now left (error_reports_in (members_at left (drop at s.now))) result }
{
    let (code, next) = integer_at(s, at, left)?;
    after_code(s, next, left - 1, code)
}
