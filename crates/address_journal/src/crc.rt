// CRC-32, bit by bit: a record has 96 bits.
ghost use Rattle.std.specs.Prelude.{◌≡◌};
ghost use Rattle.address_journal.specs.Crc32.{crc_bit, crc_byte, crc32};

fn crc_bit(x: u32) -> u32
    ensures { result ≡ crc_bit x }
{
    if x % 2 == 1 {
        return x / 2 ^ 0xedb88320;
    }
    x / 2
}

fn crc_byte(x: u32, b: u8) -> u32
    ensures { result ≡ crc_byte x b }
{
    let low = crc_bit(crc_bit(crc_bit(crc_bit(x ^ (b as u32)))));
    crc_bit(crc_bit(crc_bit(crc_bit(low))))
}

// The CRC-32 of bytes that follow bytes with the CRC-32 `before`; 0 is that of no bytes.
pub fn crc32(before: u32, bytes: &[u8]) -> u32
    ensures { result ≡ crc32 before bytes.now }
{
    let mut x = before ^ 0xffffffff;
    for byte in bytes {
        x = crc_byte(x, *byte);
    }
    x ^ 0xffffffff
}
