// Judging: whether a response's option body is one of the proxy's own and still fresh, and whom it names.
ghost use Rattle.std.specs.Prelude.{cond, [], ◌∷◌, ◌≡◌, ◌+◌, ◌*◌, ltb};
ghost use Rattle.join_proxy.specs.Body.{number_of};
ghost use Rattle.join_proxy.specs.Judging.{judge_body, judge_text, refused_with, is_fresh, pledge_in};

use crate::body::nonce;
use crate::proxy::Proxy;
use refusal::Refusal;
use std::array::from_fn;

// Whom a body names: the pledge by its interface identifier and port, and the token of its request, zeros after its length.
#[derive(Clone, Copy)]
pub struct Pledge {
    pub interface: [u8; 8],
    pub port: u16,
    pub len: u8,
    pub token: [u8; 8],
}

// Accepted means forwarded, to this pledge; with a refusal all of it is zero.
// Kept: not Result<Pledge, Refusal>: document 01 answers an empty object beside a refusal, and the law `refused-body` says so.
#[derive(Clone, Copy)]
pub struct JudgeResult {
    pub verdict: Result<(), Refusal>,
    pub pledge: Pledge,
}

impl Proxy {
    // Judges a response's body: TYPE (not 31 bytes), SEAL, RANGE (token length over 8), STALE, or forwarded. The proxy stays as it is.
    pub fn judge(self, body: &[u8]) -> JudgeResult
        ensures { result ≡ judge_body self body.now }
    {
        aes_ccm::laws();
        if body.len() != 31 {
            return refused(Refusal::Type);
        }
        let front = [body[0], body[1], body[2], body[3]];
        let mut text = [0u8; 19];
        let written = aes_ccm::unseal(self.key, nonce(front), &[], &body[4..], &mut text);
        let Ok(_) = written else {
            return refused(Refusal::Seal);
        };
        forwarded(self.next, u32::from_be_bytes(front), text)
    }
}

fn refused(refusal: Refusal) -> JudgeResult
    ensures { result ≡ refused_with refusal }
{
    JudgeResult {
        verdict: Err(refusal),
        pledge: Pledge {
            interface: [0; 8],
            port: 0,
            len: 0,
            token: [0; 8],
        },
    }
}

// Whether the number was issued with this key, and fewer than 64 after it; `next` is the number after those that were.
fn is_fresh(next: Option<u32>, number: u32) -> bool
    ensures { result ≡ is_fresh next number }
{
    match next {
        Some(count) => number < count && count - 1 - number < 64,
        None => u32::MAX - number < 64,
    }
}

// What the text under the seal leads to.
fn forwarded(next: Option<u32>, number: u32, text: [u8; 19]) -> JudgeResult
    ensures { result ≡ judge_text next number text }
{
    let len = text[10];
    if 8 < len {
        return refused(Refusal::Range);
    }
    if is_fresh(next, number) {
        return JudgeResult {
            verdict: Ok(()),
            pledge: pledge_in(text),
        };
    }
    refused(Refusal::Stale)
}

// The pledge and the token that a text names.
fn pledge_in(text: [u8; 19]) -> Pledge
    ensures { result ≡ pledge_in text }
{
    let len = text[10];
    Pledge {
        interface: from_fn(|i| text[i]),
        port: u16::from_be_bytes([text[8], text[9]]),
        len,
        token: from_fn(|i| if i < len as usize { text[11 + i] } else { 0 }),
    }
}
