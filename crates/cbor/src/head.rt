// The head of a data item: three bits of major type and five of length information, then the argument's bytes.
ghost use Rattle.std.specs.Prelude.{◌≡◌, ◌∷◌, ◌+◌, ◌≤◌, length, drop};
ghost use Rattle.cbor.specs.Answer.{head_answer, announced};
ghost use Rattle.cbor.specs.Decode.{heading};
ghost use Rattle.cbor.specs.Encode.{info_of};
ghost use Rattle.cbor.specs.ReaderSpecs.{HeadSpec};
ghost use Rattle.cbor.specs.Strict.{is_short, head_by};

use byte_io::number_of;
use refusal::Refusal;

// A head, whether it is the shortest that holds its argument, and the place where the bytes go on after it.
#[derive(Clone, Copy)]
pub struct Head {
    pub major: u8,
    pub info: u8,
    pub argument: u64,
    pub short: bool,
    pub next: usize,
}

// How many bytes hold the argument that length information 0 to 27 announces.
fn width(info: u8) -> usize
    requires { info ≤ 27 }
    ensures { (result ≡ announced info) × (result ≤ 8) }
{
    match info {
        24 => 1,
        25 => 2,
        26 => 4,
        27 => 8,
        _ => 0,
    }
}

// The length information of the shortest head that holds an argument.
#[tactic(auto, unfolding(crate::specs::Encode::info_of))]
pub(crate) fn shortest_info(argument: u64) -> u8
    ensures info { result ≡ info_of argument }
    ensures most { result ≤ 27 }
{
    match argument {
        0..=23 => argument as u8,
        24..=0xff => 24,
        0x100..=0xffff => 25,
        0x1_0000..=0xffff_ffff => 26,
        _ => 27,
    }
}

// Whether a head is the shortest; floats and simple values are exempt.
#[tactic(auto, unfolding(crate::specs::Strict::is_short))]
fn is_short(major: u8, info: u8, argument: u64) -> bool
    ensures { result ≡ is_short major info argument }
{
    major == 7 || info == shortest_info(argument)
}

// The head whose first byte is given, its other bytes standing from `at` on.
fn head_from(s: &[u8], at: usize, first: u8) -> Result<Head, Refusal>
    requires { at ≤ length s.now }
    ensures { result ≡ head_answer (length s.now) (heading (first ∷ drop at s.now)) }
{
    let major = first / 32;
    let info = first % 32;
    if info < 24 {
        return Ok(Head {
            major,
            info,
            argument: info as u64,
            short: true,
            next: at,
        });
    }
    if 27 < info {
        return Err(Refusal::Form);
    }
    let next = at + width(info);
    if s.len() < next {
        return Err(Refusal::Cut);
    }
    let argument = number_of(&s[at..next]);
    let short = is_short(major, info, argument);
    Ok(Head {
        major,
        info,
        argument,
        short,
        next,
    })
}

// The head at a place; CUT where its bytes end, FORM where its length information is 28 to 31.
pub fn read_head(s: &[u8], at: usize) -> Result<Head, Refusal>
    ensures { HeadSpec s.now at result }
{
    if s.len() <= at {
        return Err(Refusal::Cut);
    }
    head_from(s, at + 1, s[at])
}

// The head at a place; in a strict reading a head that is not the shortest is LOOSE.
pub(crate) fn read_head_by(s: &[u8], at: usize, strict: bool) -> Result<Head, Refusal>
    ensures { result ≡ head_answer (length s.now) (head_by strict (drop at s.now)) }
{
    let head = read_head(s, at)?;
    if strict && !head.short {
        return Err(Refusal::Loose);
    }
    Ok(head)
}
