// What a call answers, by what was written.
ghost use Rattle.std.specs.Prelude.{◌≡◌};
ghost use Rattle.aes_ccm.specs.Plan.{number_in, length_in};

use refusal::Refusal;

// How many bytes were written.
pub(crate) fn store_length(written: Result<usize, Refusal>, length: &mut u64) -> u32
    ensures number { result ≡ number_in written }
    ensures length { length.new ≡ length_in written }
{
    match written {
        Err(why) => {
            *length = 0;
            why.number() as u32
        }
        Ok(n) => {
            *length = n as u64;
            0
        }
    }
}
