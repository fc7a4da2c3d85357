// The flag of an identifier.
ghost use Rattle.std.specs.Prelude.{not, ◌≡◌, ◌<◌};
ghost use Rattle.link_key.specs.set.Seen.{flagged, flag};

// Sets the flag of an identifier, and tells whether it was clear.
// Kept: 256 flags in eight words, which the definitions `flagged` and `flag` of link_key read as they are (no heap).
pub(crate) fn set_flag(seen: &mut [u32; 8], identifier: u8) -> bool
    ensures told { result ≡ not (flagged seen.old identifier) }
    ensures after { seen.new ≡ flag seen.old identifier }
    ensures low { identifier < 256 }
{
    let place = (identifier % 8) as usize;
    let bit = (identifier / 8) as u32;
    let word = seen[place];
    seen[place] = word | (1u32 << bit);
    (word >> bit) % 2 == 0
}
