// An unsupported configuration (RFC 9031): an array of reports, each kept as code, label and null.
ghost use Rattle.std.specs.Prelude.{cond, [], ◌∷◌, ◌≡◌, drop};
ghost use Rattle.byte_io.specs.Write.{Did, emit};
ghost use Rattle.cbor.specs.View.{other};
ghost use Rattle.cojp.specs.Bytes.{value_view, members_at};
ghost use Rattle.cojp.specs.Lists.{fitting, written, error_reports_in, at_least_one, in_array, list_answer};
ghost use Rattle.cojp_list.specs.Gathered.{GatheredAs, signed};

use crate::error_entry::{Integer, error_entry_at};
use crate::list::{Gathered, bad_list, list_read};
use cbor::write::{head_len, write_head};
use cbor::{Value, value_at};
use cojp::{ItemList, ListRead};
use refusal::Refusal;

fn major_of(negative: bool) -> u8
    ensures { result ≡ cond negative 1 0 }
{
    if negative { 1 } else { 0 }
}

// Writes a report: code, label, null.
pub(crate) fn write_entry(dst: &mut [u8], code: Integer, label: Integer) -> Result<usize, Refusal>
    ensures { Did (emit (written (signed code ∷ signed label ∷ other ∷ []))) dst.old result dst.new }
{
    cbor::head_laws();
    let n = head_len(code.number);
    let m = n + head_len(label.number);
    let whole = m + 1;
    if dst.len() < whole {
        return Err(Refusal::Room);
    }
    let first = major_of(code.negative);
    let second = major_of(label.negative);
    let _ = write_head(dst, first, code.number);
    let _ = write_head(&mut dst[n..], second, label.number);
    let _ = write_head(&mut dst[m..], 7, 22);
    Ok(whole)
}

// Writes the reports that `count` members from a place on are; None where there is another pattern, or no room.
fn gather_entries(s: &[u8], from: usize, count: u64, dst: &mut [u8]) -> Option<Gathered>
    ensures { GatheredAs (error_reports_in (members_at count (drop from s.now))) dst.old result dst.new }
{
    cbor::head_laws();
    let mut at = from;
    let mut left = count;
    let mut len = 0;
    let mut members = 0;
    // Kept: no loop over an index. Each report says where the next one begins and how many members are left.
    while 0 < left {
        let Some(entry) = error_entry_at(s, at, left) else {
            return None;
        };
        let Ok(k) = write_entry(&mut dst[len..], entry.code, entry.label) else {
            return None;
        };
        len += k;
        at = entry.next;
        left = entry.left;
        members += 3;
    }
    Some(Gathered { members, len })
}

// The reports that `count` members from a place on are, one at least, as a list.
pub(crate) fn read_entries(s: &[u8], from: usize, count: u64) -> ListRead
    ensures { result ≡ list_answer (fitting 253 (at_least_one error_reports_in (members_at count (drop from s.now)))) }
{
    if count == 0 {
        return bad_list();
    }
    let mut bytes = [0u8; 253];
    let gathered = gather_entries(s, from, count, &mut bytes);
    list_read(gathered, bytes)
}

// The array of reports at a place.
pub fn read_unsupported(s: &[u8], at: usize) -> ListRead
    ensures { result ≡ list_answer (fitting 253 (in_array (at_least_one error_reports_in) (value_view (drop at s.now)))) }
{
    match value_at(s, at) {
        Value::Array { start, count } => read_entries(s, start, count),
        _ => bad_list(),
    }
}
