// AES-CCM-16-64-128 (RFC 8152, over RFC 3610): nonce 13 bytes, tag 8, associated data to 64 bytes, text to 256.
#![tactic(auto)]

mod block;
mod chain;
mod session;
mod stream;
mod tag;

ghost use Rattle.std.specs.Prelude.{◌≤◌, length};
ghost use Rattle.aes_ccm.specs.Laws.{CcmLaws};
ghost use Rattle.aes_ccm.specs.Plan.{Did, seal_plan, unseal_plan, release_plan};

use refusal::Refusal;
use session::Session;
use tag::same_tag;

// Seals `text` into `dst`: RANGE, ROOM, or the length written.
pub fn seal(
    key: [u8; 16],
    nonce: [u8; 13],
    associated: &[u8],
    text: &[u8],
    dst: &mut [u8],
) -> Result<usize, Refusal>
    ensures { Did (seal_plan key nonce associated.now text.now (length dst.old)) dst.old result
        dst.new }
{
    if 64 < associated.len() {
        return Err(Refusal::Range);
    }
    if 256 < text.len() {
        return Err(Refusal::Range);
    }
    if dst.len() < text.len() + 8 {
        return Err(Refusal::Room);
    }
    let n = text.len();
    let table = aes::round_table();
    let session = Session::new(&table, key, nonce);
    session.crypt_into(text, dst);
    let tag = session.tag_of(associated, text);
    dst[n..n + 8].copy_from_slice(&tag);
    Ok(n + 8)
}

// Opens `sealed` into `dst`: RANGE, ROOM, SEAL where the tag is not the one of the text in it, or the length written.
pub fn unseal(
    key: [u8; 16],
    nonce: [u8; 13],
    associated: &[u8],
    sealed: &[u8],
    dst: &mut [u8],
) -> Result<usize, Refusal>
    ensures { Did (unseal_plan key nonce associated.now sealed.now (length dst.old))
        dst.old result dst.new }
{
    if 64 < associated.len() {
        return Err(Refusal::Range);
    }
    if sealed.len() < 8 {
        return Err(Refusal::Range);
    }
    if 264 < sealed.len() {
        return Err(Refusal::Range);
    }
    let n = sealed.len() - 8;
    if dst.len() < n {
        return Err(Refusal::Room);
    }
    let table = aes::round_table();
    let session = Session::new(&table, key, nonce);
    let mut plain = [0u8; 256];
    session.crypt_into(&sealed[..n], &mut plain);
    let tag = session.tag_of(associated, &plain[..n]);
    let right = same_tag(&sealed[n..], tag);
    release(right, &plain[..n], dst)
}

// The text leaves for `dst` where its tag is right.
fn release(right: bool, text: &[u8], dst: &mut [u8]) -> Result<usize, Refusal>
    requires { length text.now ≤ length dst.old }
    ensures { Did (release_plan right text.now) dst.old result dst.new }
{
    if !right {
        return Err(Refusal::Seal);
    }
    dst[..text.len()].copy_from_slice(text);
    Ok(text.len())
}

// What the definitions say of each other: what was sealed opens to its text, nothing else opens, and a text that opens is of bytes.
pub fn laws()
    ensures { CcmLaws }
{
    aes::laws();
}
