// The tool's memory, as bench commands write it.

// How many bytes of memory the tool has.
pub const SIZE: usize = 40000;

pub type Memory = [u8; SIZE];

// Writes the bytes from a place on; those past the memory's end are left out, and no command has any.
pub fn write_bytes(memory: &mut Memory, place: usize, bytes: &[u8]) {
    for (to, from) in memory.iter_mut().skip(place).zip(bytes.iter()) {
        *to = *from;
    }
}
