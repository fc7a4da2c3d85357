// A join attempt in an image.
ghost use Rattle.std.specs.Prelude.{◌≡◌, ◌+◌, ◌≤◌, length, drop};
ghost use Rattle.byte_io.specs.Write.{Wrote};
ghost use Rattle.node_image.specs.Attempt.{phase_of, attempt_part};

use image::{number_at, put_byte, put_number};
use node_attempt::{Attempt, Phase};

const MOST_PHASE: u8 = 3;

// Kept: total, since `phase_part.get` gives a byte over 3, which no image has, a meaning too.
fn phase_of(b: u8) -> Phase
    ensures { result ≡ phase_of b }
{
    match b {
        0 => Phase::Idle,
        1 => Phase::Waiting,
        2 => Phase::Joined,
        _ => Phase::GaveUp,
    }
}

// Whether a join attempt stands at a place.
pub fn is_attempt(src: &[u8], at: usize) -> bool
    requires { at + 26 ≤ length src.now }
    ensures { result ≡ attempt_part.good (drop at src.now) }
{
    src[at] <= MOST_PHASE
}

// The join attempt at a place.
pub fn attempt_at(src: &[u8], at: usize) -> Attempt
    requires { at + 26 ≤ length src.now }
    ensures { result ≡ attempt_part.get (drop at src.now) }
{
    Attempt {
        phase: phase_of(src[at]),
        clock: number_at(src, at + 1, 8),
        sent: number_at(src, at + 9, 8),
        timeout: number_at(src, at + 17, 8),
        count: src[at + 25],
    }
}

// Writes a join attempt.
pub fn put_attempt(dst: &mut [u8], attempt: Attempt)
    requires { 26 ≤ length dst.old }
    ensures { Wrote (attempt_part.put attempt) dst.old 26 dst.new }
{
    put_byte(dst, attempt.phase as u8);
    put_number(&mut dst[1..], 8, attempt.clock);
    put_number(&mut dst[9..], 8, attempt.sent);
    put_number(&mut dst[17..], 8, attempt.timeout);
    put_byte(&mut dst[25..], attempt.count);
}
