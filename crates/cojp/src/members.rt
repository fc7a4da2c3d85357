// The members of an array, as far as a short address or a key set asks.
ghost use Rattle.cojp.specs.Bytes.{MemberSpec};

use cbor::{Value, value_at};

// A member: an unsigned number and where the bytes go on, a byte string, or no such member.
#[derive(Clone, Copy)]
pub enum Member {
    Number { number: u64, next: usize },
    Bytes { start: usize, len: usize },
    Neither,
}

// The member at a place of a payload that passed the item scan, where `left` members are left.
pub fn member_at(s: &[u8], at: usize, left: u64) -> Member
    ensures { MemberSpec s.now at left result }
{
    if left == 0 {
        return Member::Neither;
    }
    match value_at(s, at) {
        Value::Number { number, next } => Member::Number { number, next },
        Value::Bytes { start, len } => Member::Bytes { start, len },
        _ => Member::Neither,
    }
}
