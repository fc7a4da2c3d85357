// A key and a nonce for one message.
ghost use Rattle.std.specs.Prelude.{◌≡◌};
ghost use Rattle.aes.specs.Cipher.{cipher, round_keys};
ghost use Rattle.aes.specs.Words.{RoundTable};
ghost use Rattle.aes_ccm.specs.Ccm.{framing};

use crate::block::framed;

// The cipher's table, which the caller lends, the key's round keys, and the nonce.
#[derive(Drop)]
pub(crate) struct Session<'a> {
    pub table: &'a [u32; 256],
    pub keys: [[u8; 16]; 11],
    pub nonce: [u8; 13],
    ghost right: { RoundTable table.now },
}

impl<'a> Session<'a> {
    pub fn new(table: &'a [u32; 256], key: [u8; 16], nonce: [u8; 13]) -> Self
        requires { RoundTable table.now }
        ensures keys { result.keys ≡ round_keys 10 key }
        ensures nonce { result.nonce ≡ nonce }
    {
        Session {
            table,
            keys: aes::expand(key),
            nonce,
        }
    }

    pub fn encrypt(&self, block: [u8; 16]) -> [u8; 16]
        ensures { result ≡ cipher self.now.keys block }
    {
        aes::encrypt_by(self.table, self.keys, block)
    }

    // The block that begins with `flags` and the nonce, and ends with `n`, encrypted.
    pub fn encrypt_framed(&self, flags: u8, n: u16) -> [u8; 16]
        ensures { result ≡ cipher self.now.keys (framing flags self.now.nonce n) }
    {
        self.encrypt(framed(flags, self.nonce, n))
    }
}
