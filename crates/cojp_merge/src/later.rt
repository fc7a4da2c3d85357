// A parameter goes over whole: an address with its lease, a key set with all its keys. One without a lease ends the lease of the first.
ghost use Rattle.std.specs.Prelude.{◌≡◌};
ghost use Rattle.cojp.specs.Reading.{if_taken};

use cojp::Disposition;

// The second of two parameters of a kind where its own disposition says that it is taken, else the first.
pub(crate) fn later<P: Copy>(disposition: Disposition, first: P, second: P) -> P
    ensures { result ≡ if_taken disposition second first }
{
    match disposition {
        Disposition::Taken => second,
        Disposition::Absent => first,
        Disposition::Discarded => first,
    }
}
