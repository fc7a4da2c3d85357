// AES-CCM-16-64-128.
ghost use Rattle.std.specs.Prelude.{length as size};
ghost use Rattle.cipher_calls.specs.Cipher.{Wrote, sealing, unsealing};

// Seals `text` with the associated data into `dst`.
pub fn pothatch_seal(
    key: &[u8],
    nonce: &[u8],
    associated: &[u8],
    text: &[u8],
    dst: &mut [u8],
    length: &mut u64,
) -> u32
    ensures { Wrote (sealing key.now nonce.now associated.now text.now
        (size dst.old)) dst.old result dst.new length.new }
{
    cipher_calls::seal(key, nonce, associated, text, dst, length)
}

// Opens `sealed` with the associated data into `dst`.
pub fn pothatch_unseal(
    key: &[u8],
    nonce: &[u8],
    associated: &[u8],
    sealed: &[u8],
    dst: &mut [u8],
    length: &mut u64,
) -> u32
    ensures { Wrote (unsealing key.now nonce.now associated.now sealed.now
        (size dst.old)) dst.old result dst.new length.new }
{
    cipher_calls::unseal(key, nonce, associated, sealed, dst, length)
}
