// The pairs of a map, one by one.
ghost use Rattle.std.specs.Prelude.{drop};
ghost use Rattle.cojp.specs.Bytes.{after_value, EndsAt};
ghost use Rattle.cojp_map.specs.Pairs.{PairLabelSpec};

use cbor::read_head;
use cbor::scan::skip_item;
use refusal::Refusal;

// The levels that are left for the members of a payload's map.
pub const MEMBER_LEVELS: u8 = 7;

// Where the bytes go on after the value at a place: the end where no item can be read there,
// which a payload that passed the scan does not have.
pub fn item_end(s: &[u8], at: usize) -> usize
    ensures { EndsAt s.now result (after_value (drop at s.now)) }
{
    match skip_item(s, at, MEMBER_LEVELS, false) {
        Ok(next) => next,
        Err(_) => s.len(),
    }
}

// The label of the pair at a place, and where its value begins: TYPE where it is no integer. A negative label has the number 0, which no
// object knows either.
pub fn labelled_at(s: &[u8], at: usize) -> Result<(u64, usize), Refusal>
    ensures { PairLabelSpec s.now (drop at s.now) result }
{
    let Ok(head) = read_head(s, at) else {
        return Err(Refusal::Type);
    };
    match head.major {
        0 => Ok((head.argument, head.next)),
        1 => Ok((0, head.next)),
        _ => Err(Refusal::Type),
    }
}
