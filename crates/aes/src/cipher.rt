// The cipher (FIPS 197, 5.1) over round keys, its state in four words.
ghost use Rattle.std.specs.Prelude.{◌≡◌};
ghost use Rattle.aes.specs.Cipher.{add_round_key, cipher, encrypted};
ghost use Rattle.aes.specs.Words.{state_of, RoundTable, spread_by, plain_by, columns_by, cipher_by};

use crate::columns::{column, last_column, word_at};
use crate::expansion::expand;
use crate::tables::round_table;
use std::array::from_fn;

// The state: a word for each column.
#[derive(Clone, Copy)]
pub(crate) struct State {
    pub a: u32,
    pub b: u32,
    pub c: u32,
    pub d: u32,
}

// AddRoundKey.
pub fn add_round_key(s: [u8; 16], k: [u8; 16]) -> [u8; 16]
    ensures { result ≡ add_round_key s k }
{
    from_fn(|i| s[i] ^ k[i])
}

// What the rounds begin with.
fn begin(s: [u8; 16], k: [u8; 16]) -> State
    ensures { state_of result ≡ add_round_key s k }
{
    State {
        a: word_at(s, 0) ^ word_at(k, 0),
        b: word_at(s, 4) ^ word_at(k, 4),
        c: word_at(s, 8) ^ word_at(k, 8),
        d: word_at(s, 12) ^ word_at(k, 12),
    }
}

fn round(t: &[u32; 256], s: State, k: [u8; 16]) -> State
    ensures { state_of result ≡ add_round_key (columns_by (spread_by t.now) (state_of s)) k }
{
    State {
        a: column(t, s.a, s.b, s.c, s.d, word_at(k, 0)),
        b: column(t, s.b, s.c, s.d, s.a, word_at(k, 4)),
        c: column(t, s.c, s.d, s.a, s.b, word_at(k, 8)),
        d: column(t, s.d, s.a, s.b, s.c, word_at(k, 12)),
    }
}

// The last round, which has no MixColumns.
// Kept: not one function with `round` and a closure for the column: its contract would be four `F.post` in place of one equation.
fn finish(t: &[u32; 256], s: State, k: [u8; 16]) -> State
    ensures { state_of result ≡ add_round_key (columns_by (plain_by t.now) (state_of s)) k }
{
    State {
        a: last_column(t, s.a, s.b, s.c, s.d, word_at(k, 0)),
        b: last_column(t, s.b, s.c, s.d, s.a, word_at(k, 4)),
        c: last_column(t, s.c, s.d, s.a, s.b, word_at(k, 8)),
        d: last_column(t, s.d, s.a, s.b, s.c, word_at(k, 12)),
    }
}

// The sixteen bytes of a state.
pub(crate) fn bytes_of(s: State) -> [u8; 16]
    ensures { result ≡ state_of s }
{
    let mut bytes = [0u8; 16];
    bytes[..4].copy_from_slice(&s.a.to_le_bytes());
    bytes[4..8].copy_from_slice(&s.b.to_le_bytes());
    bytes[8..12].copy_from_slice(&s.c.to_le_bytes());
    bytes[12..].copy_from_slice(&s.d.to_le_bytes());
    bytes
}

// The rounds over a table and round keys, for whoever encrypts many blocks: FIPS 197's cipher where `t` is the answer of `round_table`,
// made once and lent.
pub fn encrypt_by(t: &[u32; 256], keys: [[u8; 16]; 11], block: [u8; 16]) -> [u8; 16]
    ensures exact { result ≡ cipher_by t.now keys block }
    ensures standard { RoundTable t.now → result ≡ cipher keys block }
{
    let mut x = begin(block, keys[0]);
    for k in &keys[1..10] {
        x = round(t, x, *k);
    }
    bytes_of(finish(t, x, keys[10]))
}

// AES-128 of one block.
pub fn encrypt(key: [u8; 16], block: [u8; 16]) -> [u8; 16]
    ensures { result ≡ encrypted key block }
{
    let t = round_table();
    encrypt_by(&t, expand(key), block)
}
