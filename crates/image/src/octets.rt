// Bytes as they are.
ghost use Rattle.std.specs.Prelude.{[], ◌∷◌, ◌≡◌, ◌+◌, ◌≤◌, length, take, drop, replicate};
ghost use Rattle.byte_io.specs.Write.{Wrote};

// Writes one byte.
pub fn put_byte(dst: &mut [u8], b: u8)
    requires { 1 ≤ length dst.old }
    ensures { Wrote (b ∷ []) dst.old 1 dst.new }
{
    dst[0] = b;
}

// Writes the bytes of an array.
pub fn put_array<const N: usize>(dst: &mut [u8], value: &[u8; N])
    requires { N ≤ length dst.old }
    ensures { Wrote value.now dst.old N dst.new }
{
    dst[..N].copy_from_slice(value);
}

// Writes zeros to all of it.
pub fn clear(dst: &mut [u8])
    ensures { dst.new ≡ replicate (length dst.old) 0 }
{
    dst.fill(0);
}

// As many bytes as the array has, from a place on.
pub fn array_at<const N: usize>(s: &[u8], at: usize) -> [u8; N]
    requires { at + N ≤ length s.now }
    ensures { result ≡ take N (drop at s.now) }
{
    let mut out = [0; N];
    out.copy_from_slice(&s[at..at + N]);
    out
}
