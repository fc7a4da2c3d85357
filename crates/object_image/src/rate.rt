// Join rates.
ghost use Rattle.std.specs.Prelude.{◌≡◌, ◌+◌, ◌≤◌, length, drop};
ghost use Rattle.byte_io.specs.Write.{Wrote};
ghost use Rattle.object_image.specs.Rate.{rate_parameter_part};

use crate::codes::{disposition_at, is_disposition, put_disposition};
use cojp::RateParameter;
use image::{number_at, put_number};

// Whether the bytes at a place are a join rate as a parameter.
pub fn is_rate_parameter(s: &[u8], at: usize) -> bool
    requires { at + 9 ≤ length s.now }
    ensures { result ≡ rate_parameter_part.good (drop at s.now) }
{
    is_disposition(s, at)
}

// The parameter at a place.
pub fn rate_parameter_at(s: &[u8], at: usize) -> RateParameter
    requires { at + 9 ≤ length s.now }
    ensures { result ≡ rate_parameter_part.get (drop at s.now) }
{
    RateParameter {
        disposition: disposition_at(s, at),
        value: number_at(s, at + 1, 8),
    }
}

// Writes a join rate as a parameter.
pub fn put_rate_parameter(dst: &mut [u8], parameter: RateParameter)
    requires { 9 ≤ length dst.old }
    ensures { Wrote (rate_parameter_part.put parameter) dst.old 9 dst.new }
{
    put_disposition(dst, parameter.disposition);
    put_number(&mut dst[1..], 8, parameter.value);
}
