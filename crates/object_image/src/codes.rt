// Reports and truth values, a byte each.
ghost use Rattle.std.specs.Prelude.{◌≡◌, ◌+◌, ◌≤◌, length, drop};
ghost use Rattle.byte_io.specs.Write.{Wrote};
ghost use Rattle.object_image.specs.Codes.{disposition_of, disposition_part, bool_part};

use cojp::Disposition;
use image::put_byte;

// Kept: total, since `disposition_part.get` gives a byte over 2, which no image has, a meaning too; a TryFrom would have to stand in cojp.
fn disposition_of(n: u8) -> Disposition
    ensures { result ≡ disposition_of n }
{
    match n {
        0 => Disposition::Absent,
        1 => Disposition::Taken,
        _ => Disposition::Discarded,
    }
}

// Whether the byte at a place is a report.
pub fn is_disposition(s: &[u8], at: usize) -> bool
    requires { at + 1 ≤ length s.now }
    ensures { result ≡ disposition_part.good (drop at s.now) }
{
    s[at] <= 2
}

// The report at a place.
pub fn disposition_at(s: &[u8], at: usize) -> Disposition
    requires { at + 1 ≤ length s.now }
    ensures { result ≡ disposition_part.get (drop at s.now) }
{
    disposition_of(s[at])
}

// Writes a report.
pub fn put_disposition(dst: &mut [u8], report: Disposition)
    requires { 1 ≤ length dst.old }
    ensures { Wrote (disposition_part.put report) dst.old 1 dst.new }
{
    put_byte(dst, report as u8);
}

// Whether the byte at a place is a truth value.
pub fn is_bool(s: &[u8], at: usize) -> bool
    requires { at + 1 ≤ length s.now }
    ensures { result ≡ bool_part.good (drop at s.now) }
{
    s[at] <= 1
}

// The truth value at a place.
pub fn bool_at(s: &[u8], at: usize) -> bool
    requires { at + 1 ≤ length s.now }
    ensures { result ≡ bool_part.get (drop at s.now) }
{
    s[at] != 0
}

// Writes a truth value.
pub fn put_bool(dst: &mut [u8], truth: bool)
    requires { 1 ≤ length dst.old }
    ensures { Wrote (bool_part.put truth) dst.old 1 dst.new }
{
    put_byte(dst, truth as u8);
}
