// A column of the state as a word, row 0 in its lowest byte: what the rounds do with four columns at a time.
ghost use Rattle.std.specs.Prelude.{◌≡◌, [], ◌∷◌, ◌≤◌, ◌/◌, ◌%◌, get_or};
ghost use Rattle.aes.specs.Words.{bytes_of, bytes_from, turned, picked, plain_by, spread_by, plus};

// Four bytes as a word, the first lowest.
pub(crate) fn word(a: u8, b: u8, c: u8, d: u8) -> u32
    ensures { bytes_of result ≡ a ∷ b ∷ c ∷ d ∷ [] }
{
    u32::from_le_bytes([a, b, c, d])
}

// The four bytes of a block from `at` on as a word.
pub(crate) fn word_at(block: [u8; 16], at: usize) -> u32
    requires { at ≤ 12 }
    ensures { bytes_of result ≡ bytes_from block at }
{
    word(block[at], block[at + 1], block[at + 2], block[at + 3])
}

// The bytes of a word moved up by one row, the highest coming in below.
fn turned(w: u32) -> u32
    ensures { bytes_of result ≡ turned (bytes_of w) }
{
    w.rotate_left(8)
}

// One column after a round, which over a right table is SubBytes, MixColumns and AddRoundKey: a to d are the columns from which ShiftRows
// takes its rows.
pub(crate) fn column(t: &[u32; 256], a: u32, b: u32, c: u32, d: u32, k: u32) -> u32
    ensures { bytes_of result ≡ plus (picked (spread_by t.now) a b c d) (bytes_of k) }
{
    t[(a % 256) as usize]
        ^ turned(t[(b / 256 % 256) as usize])
        ^ turned(turned(t[(c / 65536 % 256) as usize]))
        ^ turned(turned(turned(t[(d / 16777216 % 256) as usize])))
        ^ k
}

// The second byte of the entry of a word's lowest byte: in a right table, its substitution.
fn substituted(t: &[u32; 256], w: u32) -> u8
    ensures { result ≡ get_or t.now (w % 256) 0 / 256 % 256 }
{
    (t[(w % 256) as usize] / 256 % 256) as u8
}

// One column after the last round, over a right table SubBytes and AddRoundKey; a to d as in `column`.
pub(crate) fn last_column(t: &[u32; 256], a: u32, b: u32, c: u32, d: u32, k: u32) -> u32
    ensures { bytes_of result ≡ plus (picked (plain_by t.now) a b c d) (bytes_of k) }
{
    word(
        substituted(t, a),
        substituted(t, b / 256),
        substituted(t, c / 65536),
        substituted(t, d / 16777216),
    ) ^ k
}
