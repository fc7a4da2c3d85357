// Lists of the published form (RFC 9031), walked out of the bytes that are kept of them.
use cbor::{Value, value_at};
use cojp::ItemList;
use tool_text::output::{ByteString, Output};
use tool_text::{first, rest};

// The items in brackets, with commas between them, each as `put` writes it.
pub(crate) fn put_list<T, F: FnMut(&mut Output, &T)>(out: &mut Output, items: &[T], mut put: F)
    requires { F.IsAlwaysCallable put }
{
    out.byte(b'[');
    for (i, item) in items.iter().enumerate() {
        if 0 < i {
            out.byte(b',');
        }
        put(out, item);
    }
    out.byte(b']');
}

// A blacklist, as [h'0102030405060708',h'aa'].
pub fn put_blacklist(out: &mut Output, list: ItemList) {
    out.byte(b'[');
    put_strings(out, first(&list.bytes, list.len), list.count);
    out.byte(b']');
}

// So many byte strings, with commas between them.
fn put_strings(out: &mut Output, bytes: &[u8], count: u64) {
    let mut left = bytes;
    for i in 0..count {
        let Value::Bytes { start, len } = value_at(left, 0) else {
            return;
        };
        if 0 < i {
            out.byte(b',');
        }
        let string = rest(left, start);
        write!(out, "{}", ByteString(first(string, len)));
        left = rest(string, len);
    }
}

// An unsupported configuration, as [0/7,1/-1]: each report's code and label.
pub fn put_unsupported(out: &mut Output, list: ItemList) {
    out.byte(b'[');
    put_reports(out, first(&list.bytes, list.len), list.count / 3);
    out.byte(b']');
}

// So many reports, three members each, with commas between them.
fn put_reports(out: &mut Output, bytes: &[u8], count: u64) {
    let mut left = bytes;
    for i in 0..count {
        if left.is_empty() {
            break;
        }
        if 0 < i {
            out.byte(b',');
        }
        put_report(out, left);
        left = after_report(left);
    }
}

// The first report, without its null.
fn put_report(out: &mut Output, bytes: &[u8]) {
    put_integer(out, value_at(bytes, 0));
    out.byte(b'/');
    put_integer(out, value_at(after_integer(bytes), 0));
}

// What comes after the first report; its null is one byte.
fn after_report<'a>(bytes: &'a [u8]) -> &'a [u8] {
    rest(after_integer(after_integer(bytes)), 1)
}

fn after_integer<'a>(bytes: &'a [u8]) -> &'a [u8] {
    match value_at(bytes, 0) {
        Value::Number { next, .. } | Value::Minus { next, .. } => rest(bytes, next),
        _ => bytes,
    }
}

fn put_integer(out: &mut Output, value: Value) {
    match value {
        Value::Number { number, .. } => write!(out, "{number}"),
        // the least has one more than 64 bits
        Value::Minus {
            number: u64::MAX,
            ..
        } => write!(out, "-18446744073709551616"),
        Value::Minus { number, .. } => write!(out, "-{}", number + 1),
        _ => {}
    }
}
