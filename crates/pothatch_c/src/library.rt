// The library itself.
ghost use Rattle.std.specs.Prelude.{◌≡◌};
ghost use Rattle.image.specs.Part.{layout};
ghost use Rattle.pothatch.specs.Library.{size_of, size_number};

// The number of the layout of every image.
#[unsafe(no_mangle)]
pub extern "C" fn pothatch_layout() -> u32
    ensures { result ≡ layout }
{
    pothatch::library::pothatch_layout()
}

// The size of a struct, by its kind.
#[unsafe(no_mangle)]
pub extern "C" fn pothatch_size(kind: u64, size: &mut u32) -> u32
    ensures number { result ≡ size_number kind }
    ensures size { size.new ≡ size_of kind }
{
    pothatch::library::pothatch_size(kind, size)
}
