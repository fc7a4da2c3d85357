// Sealing and opening as C calls them, for bench/cipher.sh: how many bytes were written; the greatest number for a refusal, because an
// opened text may be empty.
use crate::bytes::first_bytes;

#[unsafe(no_mangle)]
pub extern "C" fn bench_seal(
    key: &[u8],
    nonce: &[u8],
    associated: &[u8],
    text: &[u8],
    dst: &mut [u8],
) -> usize {
    aes_ccm::seal(first_bytes(key), first_bytes(nonce), associated, text, dst).unwrap_or(usize::MAX)
}

#[unsafe(no_mangle)]
pub extern "C" fn bench_open(
    key: &[u8],
    nonce: &[u8],
    associated: &[u8],
    sealed: &[u8],
    dst: &mut [u8],
) -> usize {
    aes_ccm::unseal(
        first_bytes(key),
        first_bytes(nonce),
        associated,
        sealed,
        dst,
    )
    .unwrap_or(usize::MAX)
}
