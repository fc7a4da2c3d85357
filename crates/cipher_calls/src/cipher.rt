// AES-CCM-16-64-128.
ghost use Rattle.std.specs.Prelude.{cond, ◌≡◌, Ok, Err, length as size};
ghost use Rattle.refusal.specs.declared.Refusal.TheVariants.{Range};
ghost use Rattle.aes_ccm.specs.Plan.{Did};
ghost use Rattle.cipher_calls.specs.Cipher.{fit_key, Wrote, sealing, unsealing};

use crate::store::store_length;
use refusal::Refusal;

// A key of sixteen bytes and a nonce of thirteen, or RANGE.
fn key_and_nonce(key: &[u8], nonce: &[u8]) -> Result<([u8; 16], [u8; 13]), Refusal>
    ensures { result ≡ cond (fit_key key.now nonce.now) (Ok (key.now, nonce.now)) (Err Range) }
{
    let key = <[u8; 16]>::try_from(key).map_err(|_| Refusal::Range)?;
    let nonce = <[u8; 13]>::try_from(nonce).map_err(|_| Refusal::Range)?;
    Ok((key, nonce))
}

fn write_sealed(
    key: &[u8],
    nonce: &[u8],
    associated: &[u8],
    text: &[u8],
    dst: &mut [u8],
) -> Result<usize, Refusal>
    ensures { Did (sealing key.now nonce.now associated.now text.now (size dst.old)) dst.old result dst.new }
{
    let (key, nonce) = key_and_nonce(key, nonce)?;
    aes_ccm::seal(key, nonce, associated, text, dst)
}

// Seals `text` with the associated data into `dst`.
pub fn seal(
    key: &[u8],
    nonce: &[u8],
    associated: &[u8],
    text: &[u8],
    dst: &mut [u8],
    length: &mut u64,
) -> u32
    ensures { Wrote (sealing key.now nonce.now associated.now text.now
        (size dst.old)) dst.old result dst.new length.new }
{
    store_length(write_sealed(key, nonce, associated, text, dst), length)
}

fn write_unsealed(
    key: &[u8],
    nonce: &[u8],
    associated: &[u8],
    sealed: &[u8],
    dst: &mut [u8],
) -> Result<usize, Refusal>
    ensures { Did (unsealing key.now nonce.now associated.now sealed.now (size dst.old)) dst.old result dst.new }
{
    let (key, nonce) = key_and_nonce(key, nonce)?;
    aes_ccm::unseal(key, nonce, associated, sealed, dst)
}

// Opens `sealed` with the associated data into `dst`.
pub fn unseal(
    key: &[u8],
    nonce: &[u8],
    associated: &[u8],
    sealed: &[u8],
    dst: &mut [u8],
    length: &mut u64,
) -> u32
    ensures { Wrote (unsealing key.now nonce.now associated.now sealed.now
        (size dst.old)) dst.old result dst.new length.new }
{
    store_length(write_unsealed(key, nonce, associated, sealed, dst), length)
}
