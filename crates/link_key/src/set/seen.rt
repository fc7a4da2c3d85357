// Identifiers seen in a key set: 256 flags, one for each byte value, which tell a repeat without a look at the other keys.
ghost use Rattle.std.specs.Prelude.{◌≡◌, [], replicate};
ghost use Rattle.link_key.specs.set.Seen.{joins, noted, Exactly, WithOneMore, SeenLaws};

use crate::Key;

// The flags at the start of a set: none is set.
// Kept: the flags are eight words, as the theorem SeenLaws and the edit flag_of_other_identifier_set speak of them; [bool; 256] would be
// 256 bytes to clear for each set.
pub fn none_seen() -> [u32; 8]
    ensures clear { result ≡ replicate 8 0 }
    ensures none { Exactly result [] }
{
    [0u32; 8]
}

// Asked key by key from clear flags, a set is told by its flags alone.
pub fn flags_law()
    ensures { SeenLaws }
{}

// One key more of a set: whether it is in its limits and its flag was clear. A key in its limits sets its flag. Identifiers that follow
// each other have their flags in different words, so that a key need not wait for the word that the one before it stored.
pub fn join(seen: &mut [u32; 8], key: Key) -> bool
    ensures told { result ≡ joins seen.old key }
    ensures after { seen.new ≡ noted seen.old key }
    ensures so_far { WithOneMore seen.old key result seen.new }
{
    if key.valid() {
        let place = (key.identifier % 8) as usize;
        let bit = (key.identifier / 8) as u32;
        let word = seen[place];
        seen[place] = word | (1u32 << bit);
        return (word >> bit) % 2 == 0;
    }
    false
}
