// Bytes are copied out of a payload.
ghost use Rattle.std.specs.Prelude.{◌≡◌};
ghost use Rattle.cojp.specs.Octets.{copied_from};

// `n` bytes from a place on, and zeros after them; all zero where there are no such bytes or they are more than 16.
pub fn copied(s: &[u8], at: usize, n: usize) -> [u8; 16]
    ensures { result ≡ copied_from s.now at n }
{
    let mut out = [0u8; 16];
    if 16 < n || s.len() < at || s.len() - at < n {
        return out;
    }
    out[..n].copy_from_slice(&s[at..at + n]);
    out
}
