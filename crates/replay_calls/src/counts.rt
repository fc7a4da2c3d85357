// Counts of 64 bits, one after the other.
ghost use Rattle.std.specs.Prelude.{◌*◌, ◌≤◌, length};
ghost use Rattle.byte_io.specs.Write.{Wrote};
ghost use Rattle.image.specs.Part.{number, puts};

use image::put_number;

// Writes them in eight bytes each.
pub(crate) fn put_counts(dst: &mut [u8], counts: &[u64])
    requires { 8 * length counts.now ≤ length dst.old }
    ensures { Wrote (puts (number 8) counts.now) dst.old (8 * length counts.now)
        dst.new }
{
    for (i, count) in counts.iter().enumerate() {
        put_number(&mut dst[8 * i..], 8, *count);
    }
}
