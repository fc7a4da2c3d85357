// The bytes of a header and of a record: twelve bytes of fields, then their check.
ghost use Rattle.std.specs.Prelude.{◌≡◌, ◌++◌};
ghost use Rattle.address_journal.specs.Format.{
  header_fields,
  record_fields,
  four_bytes,
  header_check,
  header_of,
  check_of,
  record_with,
};

use crate::crc::crc32;

fn header_fields(first: u16, size: u16) -> [u8; 12]
    ensures { result ≡ header_fields first size }
{
    let from = first.to_be_bytes();
    let many = size.to_be_bytes();
    [
        b'P', b'H', b'L', b'J', 0, 1, from[0], from[1], many[0], many[1], 0, 0,
    ]
}

fn record_fields(kind: u8, board: [u8; 8], address: u16) -> [u8; 12]
    ensures { result ≡ record_fields kind board address }
{
    let at = address.to_be_bytes();
    [
        kind, board[0], board[1], board[2], board[3], board[4], board[5], board[6], board[7],
        at[0], at[1], 0,
    ]
}

// The fields, and the check behind them.
fn with_check(fields: [u8; 12], check: u32) -> [u8; 16]
    ensures { result ≡ fields ++ four_bytes check }
{
    let mut bytes = [0u8; 16];
    bytes[..12].copy_from_slice(&fields);
    bytes[12..].copy_from_slice(&check.to_be_bytes());
    bytes
}

// The check of a header, which the first record's check continues.
#[tactic(auto, unfolding(crate::specs::Format::header_check))]
pub fn header_check(first: u16, size: u16) -> u32
    ensures { result ≡ header_check first size }
{
    crc32(0, &header_fields(first, size))
}

// The 16 bytes with which a journal of this range begins.
#[tactic(auto, unfolding(crate::specs::Format::header_of))]
pub fn header_of(first: u16, size: u16) -> [u8; 16]
    ensures { result ≡ header_of first size }
{
    with_check(header_fields(first, size), header_check(first, size))
}

// The check of a record that follows the check `previous`.
#[tactic(auto, unfolding(crate::specs::Format::check_of))]
pub(crate) fn check_of(kind: u8, board: [u8; 8], address: u16, previous: u32) -> u32
    ensures { result ≡ check_of kind board address previous }
{
    let fields = record_fields(kind, board, address);
    crc32(previous, &fields)
}

// The 16 bytes of a record with this check.
#[tactic(auto, unfolding(crate::specs::Format::record_with))]
pub(crate) fn record_with(kind: u8, board: [u8; 8], address: u16, check: u32) -> [u8; 16]
    ensures { result ≡ record_with kind board address check }
{
    with_check(record_fields(kind, board, address), check)
}
