// Additional information of a key (RFC 9031): the key source that a frame names beside the key index.
ghost use Rattle.std.specs.Prelude.{◌≡◌};
ghost use Rattle.link_key.specs.AdditionalInfo.{padded_bytes};

// None, 4 bytes (key identification mode 2) or 8 bytes (mode 3). There is no other value, so nothing to refuse.
#[derive(Clone, Copy, PartialEq, Eq)]
pub enum AdditionalInfo {
    Absent,
    Four(u8, u8, u8, u8),
    Eight(u8, u8, u8, u8, u8, u8, u8, u8),
}

// The first `len` bytes, and zeros after them.
// Kept: the bytes are fields of an enum, so there is no slice of them to lend, and without a heap no Vec to return.
#[derive(Clone, Copy)]
pub struct PaddedBytes {
    pub len: usize,
    pub bytes: [u8; 8],
}

// The bytes of additional information, and zeros after them.
pub fn additional_info_bytes(info: AdditionalInfo) -> PaddedBytes
    ensures { result ≡ padded_bytes info }
{
    match info {
        AdditionalInfo::Absent => PaddedBytes {
            len: 0,
            bytes: [0u8; 8],
        },
        AdditionalInfo::Four(a, b, c, d) => PaddedBytes {
            len: 4,
            bytes: [a, b, c, d, 0, 0, 0, 0],
        },
        AdditionalInfo::Eight(a, b, c, d, e, f, g, h) => PaddedBytes {
            len: 8,
            bytes: [a, b, c, d, e, f, g, h],
        },
    }
}
