// What a key's usage means for the radio. Beacons are never encrypted (004, Table 3: K1 is used without encryption).
ghost use Rattle.std.specs.Prelude.{◌≡◌};
ghost use Rattle.pothatch.specs.Usage.{encryption, UsageSpec};

use crate::wide::code_of;
use link_key::usage::{Family, entry_at};

fn encryption_of(family: Family) -> u32
    ensures { result ≡ encryption family }
{
    match family {
        Family::K1K2Encrypted => 1,
        Family::K1K2 => 0,
        Family::K1 => 0,
        Family::K2 => 0,
        Family::K2Encrypted => 1,
    }
}

// Whether data frames and acknowledgements under a key of this usage are encrypted, and the length of a frame's MIC in bytes.
pub fn pothatch_key_usage(usage: u64, encrypted: &mut u32, mic_length: &mut u32) -> u32
    ensures { UsageSpec usage result encrypted.new mic_length.new }
{
    match entry_at(code_of(usage)) {
        Err(why) => {
            *encrypted = 0;
            *mic_length = 0;
            why.number() as u32
        }
        Ok(listed) => {
            let family = listed.family;
            *encrypted = encryption_of(family);
            *mic_length = listed.mic as u32 / 8;
            0
        }
    }
}
