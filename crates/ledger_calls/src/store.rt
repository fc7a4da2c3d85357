// What a call answers, and what it stores, by its verdict.
ghost use Rattle.std.specs.Prelude.{◌≡◌, length, replicate};
ghost use Rattle.refusal.specs.Verdict.{verdict_number};
ghost use Rattle.address_ledger.specs.Answers.{address_verdict, address_value};
ghost use Rattle.state_image.specs.Ledger.{ledger_image};
ghost use Rattle.image.specs.Effects.{on_accept};

use address_ledger::Ledger;
use image::clear;
use refusal::Refusal;
use state_image::put_ledger;

// Kept: the C interface has a verdict as a number, 0 or that of the refusal, and the results in lent bytes.
// A ledger as a result.
pub(crate) fn store_ledger(verdict: Result<(), Refusal>, ledger: Ledger, out: &mut [u8]) -> u32
    requires { length out.old ≡ 16 }
    ensures number { result ≡ verdict_number verdict }
    ensures out { out.new ≡ on_accept verdict (replicate 16 0) (ledger_image.put ledger) }
{
    match verdict {
        Ok(()) => {
            put_ledger(out, ledger);
            0
        }
        Err(why) => {
            clear(out);
            why.number() as u32
        }
    }
}

// The ledger after a call, and the address that it answered.
pub(crate) fn store_address(
    answer: Result<u16, Refusal>,
    ledger: Ledger,
    image: &mut [u8],
    address: &mut u16,
) -> u32
    requires { length image.old ≡ 16 }
    ensures number { result ≡ verdict_number (address_verdict answer) }
    ensures image { image.new ≡ on_accept (address_verdict answer) image.old (ledger_image.put ledger) }
    ensures address { address.new ≡ on_accept (address_verdict answer) 0 (address_value answer) }
{
    match answer {
        Ok(granted) => {
            put_ledger(image, ledger);
            *address = granted;
            0
        }
        Err(why) => {
            *address = 0;
            why.number() as u32
        }
    }
}
