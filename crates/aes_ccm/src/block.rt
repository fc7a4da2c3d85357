// The blocks that the cipher is given (RFC 3610, 2.2 and 2.3).
ghost use Rattle.std.specs.Prelude.{◌≡◌, ◌<◌, ◌≤◌, length};
ghost use Rattle.aes_ccm.specs.Ccm.{block, framing, headed};

// At most sixteen bytes as a block, padded with zeros.
pub(crate) fn block(s: &[u8]) -> [u8; 16]
    requires { length s.now ≤ 16 }
    ensures { result ≡ block s.now }
{
    let mut t = [0u8; 16];
    t[..s.len()].copy_from_slice(s);
    t
}

// A block that begins with `flags` and the nonce, and ends with `n` in two bytes.
pub(crate) fn framed(flags: u8, nonce: [u8; 13], n: u16) -> [u8; 16]
    ensures { result ≡ framing flags nonce n }
{
    let mut t = [flags; 16];
    t[1..14].copy_from_slice(&nonce);
    t[14..].copy_from_slice(&n.to_be_bytes());
    t
}

// The first block of the associated data after its length.
pub(crate) fn headed_block(a: &[u8]) -> [u8; 16]
    requires { (0 < length a.now) × (length a.now < 65280) }
    ensures { result ≡ block (headed a.now) }
{
    let count = a.len().min(14);
    let mut t = [0u8; 16];
    t[..2].copy_from_slice(&(a.len() as u16).to_be_bytes());
    t[2..2 + count].copy_from_slice(&a[..count]);
    t
}
