// HEX, hexadecimal digits with spaces among them, read into a buffer in as many parts as it comes in.
ghost use Rattle.std.specs.Prelude.{◌≡◌, ◌<◌, length};
ghost use Rattle.tool_numerals.specs.Hex.{fresh, sign_of, sign_value, with_digit, stored_digit, with_character, stored};
ghost use Rattle.tool_numerals.specs.Hex.{read_on, written_on, answer_of, HexIsBytes};

// What was read so far.
#[derive(Clone, Copy)]
pub struct Hex {
    // how many bytes were written to the buffer; where it is full, later ones are passed over
    pub len: usize,
    // the first digit of a byte, while it waits for the second
    pub high: Option<u8>,
    // whether a character was neither a digit nor a space
    pub stray: bool,
}

impl Hex {
    pub fn new() -> Hex
        ensures { result ≡ fresh }
    {
        Hex {
            len: 0,
            high: None,
            stray: false,
        }
    }

    // HEX with its next part.
    pub fn more(self, part: &[u8], buffer: &mut [u8]) -> Hex
        ensures value { result ≡ read_on self (length buffer.old) part.now }
        ensures buffer_after { buffer.new ≡ written_on self buffer.old (length buffer.old) part.now }
    {
        let mut hex = self;
        for c in part {
            hex = hex.character(*c, buffer);
        }
        hex
    }

    // How many bytes of the buffer HEX stands for, what was read being the whole of it: none for a character that is neither a digit nor a
    // space, and for an odd count of digits.
    pub fn payload(self) -> Option<usize>
        ensures { result ≡ answer_of self }
    {
        if self.stray || self.high.is_some() {
            return None;
        }
        Some(self.len)
    }

    // HEX with one character more.
    fn character(self, c: u8, buffer: &mut [u8]) -> Hex
        ensures value { result ≡ with_character self (length buffer.old) (sign_of c) }
        ensures buffer_after { buffer.new ≡ stored self buffer.old (sign_of c) }
    {
        match digit_value(c) {
            Some(value) => self.digit(value, buffer),
            None if c == b' ' => self,
            None => Hex {
                stray: true,
                ..self
            },
        }
    }

    // HEX with one digit more.
    fn digit(self, value: u8, buffer: &mut [u8]) -> Hex
        requires { value < 16 }
        ensures value { result ≡ with_digit self (length buffer.old) value }
        ensures buffer_after { buffer.new ≡ stored_digit self buffer.old value }
    {
        let Some(high) = self.high else {
            return Hex {
                high: Some(value),
                ..self
            };
        };
        let mut len = self.len;
        if len < buffer.len() {
            buffer[len] = high % 16 * 16 + value;
            len += 1;
        }
        Hex {
            len,
            high: None,
            ..self
        }
    }
}

// The value of a hexadecimal digit.
fn digit_value(c: u8) -> Option<u8>
    ensures { result ≡ sign_value (sign_of c) }
{
    match c {
        b'0' => Some(0),
        b'1' => Some(1),
        b'2' => Some(2),
        b'3' => Some(3),
        b'4' => Some(4),
        b'5' => Some(5),
        b'6' => Some(6),
        b'7' => Some(7),
        b'8' => Some(8),
        b'9' => Some(9),
        b'A' | b'a' => Some(10),
        b'B' | b'b' => Some(11),
        b'C' | b'c' => Some(12),
        b'D' | b'd' => Some(13),
        b'E' | b'e' => Some(14),
        b'F' | b'f' => Some(15),
        _ => None,
    }
}

// HEX, whole or in parts, is read as the bytes that it stands for.
pub fn hex_law()
    ensures { HexIsBytes }
{}
