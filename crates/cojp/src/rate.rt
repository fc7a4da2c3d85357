// Join rates (RFC 9031): how many bytes of join traffic a proxy forwards in a second.
ghost use Rattle.std.specs.Prelude.{◌≡◌, drop};
ghost use Rattle.cojp.specs.Bytes.{value_view};
ghost use Rattle.cojp.specs.Rate.{no_rate_parameter, rate_taken};

use crate::disposition::Disposition;
use cbor::{Value, value_at};

// The value counts where it is taken.
#[derive(Clone, Copy)]
pub struct RateParameter {
    pub disposition: Disposition,
    pub value: u64,
}

// A parameter with no value.
pub fn no_rate(report: Disposition) -> RateParameter
    ensures { result ≡ no_rate_parameter report }
{
    RateParameter {
        disposition: report,
        value: 0,
    }
}

// The join rate at a place of a payload that passed the item scan; what is no unsigned number is bad.
pub fn read_rate(s: &[u8], at: usize) -> RateParameter
    ensures { result ≡ rate_taken (value_view (drop at s.now)) }
{
    match value_at(s, at) {
        Value::Number { number, .. } => RateParameter {
            disposition: Disposition::Taken,
            value: number,
        },
        _ => no_rate(Disposition::Discarded),
    }
}
