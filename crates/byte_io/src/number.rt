// Numbers in bytes, the most significant byte first.
ghost use Rattle.std.specs.Prelude.{◌≡◌, ◌≤◌, length};
ghost use Rattle.byte_io.specs.BigEndian.{big_endian, bytes_of};

// The number that up to eight bytes hold.
pub fn number_of(bytes: &[u8]) -> u64
    requires { length bytes.now ≤ 8 }
    ensures { result ≡ big_endian bytes.now }
{
    let mut value: u64 = 0;
    for byte in bytes {
        value = value * 256 + *byte as u64;
    }
    value
}

// Fills a slice with a number; what does not fit in it is left out.
pub fn put_number(dst: &mut [u8], number: u64)
    ensures { dst.new ≡ bytes_of (length dst.old) number }
{
    let mut left = number;
    for i in (0..dst.len()).rev() {
        dst[i] = (left % 256) as u8;
        left /= 256;
    }
}
