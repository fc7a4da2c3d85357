// What stands at a place, as far as the layer above asks.
ghost use Rattle.cbor.specs.View.{ValueSpec};

use crate::head::read_head;

// A map's label: an integer, or something else.
#[derive(Clone, Copy)]
pub enum Label {
    NoInteger,
    Negative,
    Number(u64),
}

// A value: an unsigned number and where the bytes go on, a byte string, an array whose members begin at `start`, something else, or the
// negative number -1 - `number`.
#[derive(Clone, Copy)]
pub enum Value {
    Number { number: u64, next: usize },
    Bytes { start: usize, len: usize },
    Array { start: usize, count: u64 },
    Other,
    Minus { number: u64, next: usize },
}

// The value at a place; a byte string that the slice does not hold whole is something else.
pub fn value_at(s: &[u8], at: usize) -> Value
    ensures { ValueSpec s.now at result }
{
    let Ok(head) = read_head(s, at) else {
        return Value::Other;
    };
    let argument = head.argument;
    let next = head.next;
    match head.major {
        0 => Value::Number {
            number: argument,
            next,
        },
        1 => Value::Minus {
            number: argument,
            next,
        },
        2 => {
            let room = (s.len() - next) as u64;
            if argument <= room {
                Value::Bytes {
                    start: next,
                    len: argument as usize,
                }
            } else {
                Value::Other
            }
        }
        4 => Value::Array {
            start: next,
            count: argument,
        },
        _ => Value::Other,
    }
}
