// The names of the refusals.
ghost use Rattle.pothatch.specs.Library.{Names};

// The refusal's name in ASCII, with zeros after it.
#[unsafe(no_mangle)]
pub extern "C" fn pothatch_refusal_name(number: u64, name: &mut [u8]) -> u32
    ensures { Names number name.old result name.new }
{
    pothatch::name::pothatch_refusal_name(number, name)
}
