// The key stream (RFC 3610, 2.3).
ghost use Rattle.std.specs.Prelude.{◌≡◌, ◌++◌, ◌≤◌, length, drop};
ghost use Rattle.aes_ccm.specs.Ccm.{crypt};

use crate::session::Session;

impl Session<'_> {
    // The bytes of `src` xor the key stream, at the front of `dst`.
    pub fn crypt_into(&self, src: &[u8], dst: &mut [u8])
        requires { (length src.now ≤ length dst.old) × (length src.now ≤ 256) }
        ensures { dst.new ≡ crypt self.now.keys self.now.nonce src.now ++ drop (length src.now) dst.old }
    {
        aes::laws();
        let mut s = [0u8; 16];
        for (j, x) in src.iter().enumerate() {
            if j % 16 == 0 {
                s = self.encrypt_framed(1, j as u16 / 16 + 1);
            }
            dst[j] = *x ^ s[j % 16];
        }
    }
}
