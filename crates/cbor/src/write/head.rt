// The shortest head of a major type and an argument.
ghost use Rattle.std.specs.Prelude.{◌≡◌, ◌+◌, ◌≤◌, length};
ghost use Rattle.byte_io.specs.Write.{Did, Wrote};
ghost use Rattle.cbor.specs.Answer.{head_plan};
ghost use Rattle.cbor.specs.Encode.{extra_of, shortest};

use crate::head::shortest_info;
use byte_io::put_number;
use refusal::Refusal;

// How many bytes the shortest head of an argument takes: the first, and those that follow it.
#[tactic(auto, unfolding(crate::specs::Encode::extra_of))]
pub fn head_len(argument: u64) -> usize
    ensures { result ≡ extra_of argument + 1 }
{
    match argument {
        0..=23 => 1,
        24..=0xff => 2,
        0x100..=0xffff => 3,
        0x1_0000..=0xffff_ffff => 5,
        _ => 9,
    }
}

// Writes the shortest head, n bytes: the first, and the argument's last n - 1 bytes, big-endian.
pub(crate) fn put_head(dst: &mut [u8], major: u8, argument: u64, n: usize)
    requires { (major ≤ 7) × (n ≡ extra_of argument + 1) × (n ≤ length dst.old) }
    ensures { Wrote (shortest major argument) dst.old n dst.new }
{
    dst[0] = major * 32 + shortest_info(argument);
    put_number(&mut dst[1..n], argument);
}

// Writes the shortest head of a major type and an argument.
pub fn write_head(dst: &mut [u8], major: u8, argument: u64) -> Result<usize, Refusal>
    ensures { Did (head_plan major argument) dst.old result dst.new }
{
    if 7 < major {
        return Err(Refusal::Range);
    }
    let n = head_len(argument);
    if dst.len() < n {
        return Err(Refusal::Room);
    }
    put_head(dst, major, argument, n);
    Ok(n)
}
