// The key expansion (FIPS 197, 5.2).
ghost use Rattle.std.specs.Prelude.{◌≡◌, [], ◌∷◌, get_or};
ghost use Rattle.lemmas.specs.lists.Table.{table};
ghost use Rattle.aes.specs.Field.{xtime, sub_byte};
ghost use Rattle.aes.specs.Cipher.{next_key, round_keys};
ghost use Rattle.aes.specs.Words.{bytes_of};

use crate::cipher::{State, bytes_of};
use crate::columns::{word, word_at};
use crate::tables::substitution;

// A byte times x.
fn times_x(b: u8) -> u8
    ensures { result ≡ xtime b }
{
    ((b >> 7) * 0x1b) ^ (b << 1)
}

fn substituted(list: &[u8; 256], b: u8) -> u8
    requires { list.now ≡ table 256 sub_byte }
    ensures { result ≡ sub_byte b }
{
    list[b as usize]
}

// The last word of a round key, its bytes moved down by one and substituted.
fn substituted_word(list: &[u8; 256], k: [u8; 16]) -> u32
    requires { list.now ≡ table 256 sub_byte }
    ensures { bytes_of result
        ≡ sub_byte (get_or k 13 0) ∷ sub_byte (get_or k 14 0) ∷ sub_byte (get_or k 15 0) ∷ sub_byte (get_or k 12 0) ∷ [] }
{
    word(
        substituted(list, k[13]),
        substituted(list, k[14]),
        substituted(list, k[15]),
        substituted(list, k[12]),
    )
}

// The round key after k; `rc` is the round constant's first byte.
fn next_key(list: &[u8; 256], rc: u8, k: [u8; 16]) -> [u8; 16]
    requires { list.now ≡ table 256 sub_byte }
    ensures { result ≡ next_key rc k }
{
    let a = word_at(k, 0) ^ (substituted_word(list, k) ^ word(rc, 0, 0, 0));
    let b = word_at(k, 4) ^ a;
    let c = word_at(k, 8) ^ b;
    let d = word_at(k, 12) ^ c;
    bytes_of(State { a, b, c, d })
}

// The key expansion: eleven round keys of sixteen bytes.
// Kept: eleven arrays of sixteen bytes, which document 01 and `expand`'s clause (a list of lists) give.
pub fn expand(key: [u8; 16]) -> [[u8; 16]; 11]
    ensures { result ≡ round_keys 10 key }
{
    let list = substitution();
    let mut keys = [key; 11];
    let mut rc: u8 = 1;
    for n in 0..10 {
        keys[n + 1] = next_key(&list, rc, keys[n]);
        rc = times_x(rc);
    }
    keys
}
