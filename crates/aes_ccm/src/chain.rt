// The chain of blocks from which the tag is made (RFC 3610, 2.2), and the tag.
ghost use Rattle.std.specs.Prelude.{◌≡◌, ◌<◌, length};
ghost use Rattle.aes_ccm.specs.Ccm.{blocks, headed, chain, last_of, tag};

use crate::block::{block, headed_block};
use crate::session::Session;
use std::array::from_fn;

impl Session<'_> {
    // The chain gone on over the blocks of s.
    fn absorb(&self, x: [u8; 16], s: &[u8]) -> [u8; 16]
        ensures { result ≡ chain self.now.keys x (blocks s.now) }
    {
        let mut y = x;
        for chunk in s.chunks(16) {
            y = self.encrypt(aes::add_round_key(y, block(chunk)));
        }
        y
    }

    // The chain gone on over the associated data.
    fn absorb_data(&self, x: [u8; 16], a: &[u8]) -> [u8; 16]
        requires { (0 < length a.now) × (length a.now < 65280) }
        ensures { result ≡ chain self.now.keys x (blocks (headed a.now)) }
    {
        let y = self.encrypt(aes::add_round_key(x, headed_block(a)));
        self.absorb(y, &a[a.len().min(14)..])
    }

    // The last value of the chain, of which the tag is made.
    fn last_of(&self, a: &[u8], m: &[u8]) -> [u8; 16]
        requires { (length a.now < 65280) × (length m.now < 65536) }
        ensures { result ≡ last_of self.now.keys self.now.nonce a.now m.now }
    {
        if a.is_empty() {
            let x = self.encrypt_framed(0x19, m.len() as u16);
            return self.absorb(x, m);
        }
        let y = self.encrypt_framed(0x59, m.len() as u16);
        self.absorb(self.absorb_data(y, a), m)
    }

    // The tag, encrypted.
    pub fn tag_of(&self, a: &[u8], m: &[u8]) -> [u8; 8]
        requires { (length a.now < 65280) × (length m.now < 65536) }
        ensures { result ≡ tag self.now.keys self.now.nonce a.now m.now }
    {
        let t = self.last_of(a, m);
        let s = self.encrypt_framed(1, 0);
        from_fn(|i| t[i] ^ s[i])
    }
}
