// Document 01's usage list: which keys a key usage stands for, and how long their message integrity code (MIC) is.
ghost use Rattle.std.specs.Prelude.{◌≡◌};
ghost use Rattle.link_key.specs.usage.Usage.{entry_at, family_covers};

use refusal::Refusal;

// Which of the keys K1 (beacons) and K2 (data, acknowledgements) of document 004 a usage stands for, and whether frames are encrypted.
// K1 is never used with encryption.
#[derive(Clone, Copy)]
pub enum Family {
    K1K2Encrypted,
    K1K2,
    K1,
    K2,
    K2Encrypted,
}

// An entry of the usage list. All of them use AES-CCM-128.
#[derive(Clone, Copy)]
pub struct Usage {
    pub family: Family,
    // The size of the MIC in bits: 32, 64 or 128.
    pub mic: u8,
}

// Kept: document 01 asks for the usage list as a constant table, read by number.
const USAGES: [Usage; 15] = [
    Usage {
        family: Family::K1K2Encrypted,
        mic: 32, // 0
    },
    Usage {
        family: Family::K1K2Encrypted,
        mic: 64, // 1
    },
    Usage {
        family: Family::K1K2Encrypted,
        mic: 128, // 2
    },
    Usage {
        family: Family::K1K2,
        mic: 32, // 3
    },
    Usage {
        family: Family::K1K2,
        mic: 64, // 4
    },
    Usage {
        family: Family::K1K2,
        mic: 128, // 5
    },
    Usage {
        family: Family::K1,
        mic: 32, // 6
    },
    Usage {
        family: Family::K1,
        mic: 64, // 7
    },
    Usage {
        family: Family::K1,
        mic: 128, // 8
    },
    Usage {
        family: Family::K2,
        mic: 32, // 9
    },
    Usage {
        family: Family::K2,
        mic: 64, // 10
    },
    Usage {
        family: Family::K2,
        mic: 128, // 11
    },
    Usage {
        family: Family::K2Encrypted,
        mic: 32, // 12
    },
    Usage {
        family: Family::K2Encrypted,
        mic: 64, // 13
    },
    Usage {
        family: Family::K2Encrypted,
        mic: 128, // 14
    },
];

// The entry of the usage list with this number; RANGE where there is none.
pub fn entry_at(usage: u8) -> Result<Usage, Refusal>
    ensures { result ≡ entry_at usage }
{
    if 14 < usage {
        return Err(Refusal::Range);
    }
    Ok(USAGES[usage as usize])
}

impl Family {
    // Whether keys of the family cover the frame type, 0 beacon or 1 data; no key covers another type.
    pub(crate) fn covers_type(self, frame_type: u8) -> bool
        ensures { result ≡ family_covers self frame_type }
    {
        match self {
            Family::K1K2Encrypted | Family::K1K2 => frame_type <= 1,
            Family::K1 => frame_type == 0,
            Family::K2 | Family::K2Encrypted => frame_type == 1,
        }
    }
}
