// A list that is handed in is within its limits if reading it again gives it.
ghost use Rattle.std.specs.Prelude.{◌≡◌, ◌≤◌};
ghost use Rattle.cojp.specs.Lists.{strings_in, error_reports_in, at_least_one, same_as, kept};

use crate::error_entries::read_entries;
use crate::strings::read_strings;
use byte_io::same_bytes;
use cojp::{ItemList, ListRead};

// Whether what was read again is the list.
fn same_as(again: ListRead, l: ItemList) -> bool
    requires { (again.value.len ≤ 253) × (l.len ≤ 253) }
    ensures { result ≡ same_as again l }
{
    if !again.good {
        return false;
    }
    let other = again.value;
    if other.count != l.count {
        return false;
    }
    let x = other.bytes;
    let n = other.len;
    let y = l.bytes;
    let m = l.len;
    same_bytes(&x[..n], &y[..m])
}

// Whether a list that is handed in is a blacklist: reading it again gives it.
pub fn is_blacklist(l: ItemList) -> bool
    ensures { result ≡ kept strings_in l }
{
    let len = l.len;
    if 253 < len {
        return false;
    }
    let bytes = l.bytes;
    let again = read_strings(&bytes[..len], 0, l.count);
    same_as(again, l)
}

// Whether a list that is handed in is one of reports.
pub fn is_unsupported(l: ItemList) -> bool
    ensures { result ≡ kept (at_least_one error_reports_in) l }
{
    let len = l.len;
    if 253 < len {
        return false;
    }
    let bytes = l.bytes;
    let again = read_entries(&bytes[..len], 0, l.count);
    same_as(again, l)
}
