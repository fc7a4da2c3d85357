// Additional information of a key.
ghost use Rattle.std.specs.Prelude.{◌≡◌, ◌+◌, ◌≤◌, length, drop};
ghost use Rattle.byte_io.specs.Write.{Wrote};
ghost use Rattle.key_image.specs.AdditionalInfo.{additional_info_part};

use image::{number_at, put_array, put_byte};
use link_key::{AdditionalInfo, additional_info_bytes};

// The information from a place on.
pub(crate) fn additional_info_at(src: &[u8], at: usize) -> AdditionalInfo
    requires { at + 9 ≤ length src.now }
    ensures { result ≡ additional_info_part.get (drop at src.now) }
{
    match src[at] {
        0 => AdditionalInfo::Absent,
        4 => AdditionalInfo::Four(src[at + 1], src[at + 2], src[at + 3], src[at + 4]),
        _ => AdditionalInfo::Eight(
            src[at + 1],
            src[at + 2],
            src[at + 3],
            src[at + 4],
            src[at + 5],
            src[at + 6],
            src[at + 7],
            src[at + 8],
        ),
    }
}

// Whether there are 0, 4 or 8 bytes, and zeros after them.
pub(crate) fn is_additional_info(src: &[u8], at: usize) -> bool
    requires { at + 9 ≤ length src.now }
    ensures { result ≡ additional_info_part.good (drop at src.now) }
{
    let len = src[at];
    if len == 0 {
        return number_at(src, at + 1, 8) == 0;
    }
    if len == 4 {
        return number_at(src, at + 5, 4) == 0;
    }
    len == 8
}

// Writes the information.
pub(crate) fn put_additional_info(dst: &mut [u8], info: AdditionalInfo)
    requires { 9 ≤ length dst.old }
    ensures { Wrote (additional_info_part.put info) dst.old 9 dst.new }
{
    let spread = additional_info_bytes(info);
    put_byte(dst, spread.len as u8);
    put_array(&mut dst[1..], &spread.bytes);
}
