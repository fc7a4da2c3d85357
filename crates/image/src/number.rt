// Numbers of up to eight bytes, the most significant first.
ghost use Rattle.std.specs.Prelude.{◌≡◌, ◌+◌, ◌≤◌, length, take, drop};
ghost use Rattle.byte_io.specs.Write.{Wrote};
ghost use Rattle.byte_io.specs.BigEndian.{big_endian, bytes_of};

// Writes a number in so many bytes; what does not fit in them is left out.
pub fn put_number(dst: &mut [u8], width: usize, n: u64)
    requires { width ≤ length dst.old }
    ensures { Wrote (bytes_of width n) dst.old width dst.new }
{
    let zeros = width.saturating_sub(8);
    dst[..zeros].fill(0);
    dst[zeros..width].copy_from_slice(&n.to_be_bytes()[8 + zeros - width..]);
}

// The number that so many bytes from a place on hold.
pub fn number_at(s: &[u8], at: usize, width: usize) -> u64
    requires { (at + width ≤ length s.now) × (width ≤ 8) }
    ensures { result ≡ big_endian (take width (drop at s.now)) }
{
    let mut bytes = [0; 8];
    bytes[8 - width..].copy_from_slice(&s[at..at + width]);
    u64::from_be_bytes(bytes)
}
