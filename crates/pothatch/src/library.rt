// The library itself.
ghost use Rattle.std.specs.Prelude.{◌≡◌};
ghost use Rattle.image.specs.Part.{layout};
ghost use Rattle.pothatch.specs.Library.{size_of, size_number};

use image::RANGE;

// The number of the layout of every image.
pub fn pothatch_layout() -> u32
    ensures { result ≡ layout }
{
    1
}

// The size of the struct of a kind, a letter in ASCII; 0 where there is none.
// Kept: 0 and not an Option, since C is handed 0 (`pothatch_size`, RefusalsKeep.size).
fn size_of(kind: u64) -> u32
    ensures { result ≡ size_of kind }
{
    match kind {
        0x51 => 296,
        0x43 => 570,
        0x4e => 878,
        0x52 => 17,
        0x4b => 33,
        0x4c => 16,
        0x50 => 26,
        0x47 => 21,
        0x53 => 6,
        0x54 => 251,
        _ => 0,
    }
}

// The size of a struct, by its kind.
pub fn pothatch_size(kind: u64, size: &mut u32) -> u32
    ensures number { result ≡ size_number kind }
    ensures size { size.new ≡ size_of kind }
{
    let found = size_of(kind);
    *size = found;
    if found == 0 {
        return RANGE;
    }
    0
}
