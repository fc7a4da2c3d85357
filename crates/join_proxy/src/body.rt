// The option body: a number, and under its seal what names the pledge.
ghost use Rattle.std.specs.Prelude.{◌≡◌, ◌≤◌, length};
ghost use Rattle.join_proxy.specs.Body.{nonce_with, pledge_text, BodyWritten};

use std::array::from_fn;

// Nine zeros and the number's bytes.
pub(crate) fn nonce(number: [u8; 4]) -> [u8; 13]
    ensures { result ≡ nonce_with number }
{
    let mut t = [0u8; 13];
    t[9..].copy_from_slice(&number);
    t
}

// What is sealed: interface identifier, port, token length, and the token with zeros after it.
pub(crate) fn text(interface: [u8; 8], port: u16, token: &[u8]) -> [u8; 19]
    requires { length token.now ≤ 8 }
    ensures { result ≡ pledge_text interface port token.now }
{
    let padded: [u8; 8] = from_fn(|i| token.get(i).copied().unwrap_or(0));
    let mut t = [token.len() as u8; 19];
    t[11..].copy_from_slice(&padded);
    t[8..10].copy_from_slice(&port.to_be_bytes());
    t[..8].copy_from_slice(&interface);
    t
}

// The body with this number and text, 31 bytes, at the front of `dst`.
pub(crate) fn write_body(key: [u8; 16], number: [u8; 4], text: [u8; 19], dst: &mut [u8])
    requires { 31 ≤ length dst.old }
    ensures { BodyWritten key number text dst.old dst.new }
{
    aes_ccm::laws();
    dst[..4].copy_from_slice(&number);
    let _ = aes_ccm::seal(key, nonce(number), &[], &text, &mut dst[4..]);
}
