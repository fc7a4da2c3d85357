// Short addresses: which two bytes are one, and the bytes of the address with a number.
// Only this crate tests for the two that are none, so that reader, writers, node and ledger mean the same by an address.
#![tactic(auto)]

ghost use Rattle.std.specs.Prelude.{◌≡◌};
ghost use Rattle.short_address.specs.Address.{is_address, bytes_of, AddressLaws};

// Whether the two bytes, the high one first, are an address: all but FFFF (broadcast) and FFFE (none allocated) are.
pub fn is_address(bytes: [u8; 2]) -> bool
    ensures { result ≡ is_address bytes }
{
    u16::from_be_bytes(bytes) < 0xfffe
}

// The two bytes of the address with this number, as a payload has them.
#[tactic(auto, using(crate::proofs::Addresses::be_bytes))]
pub fn bytes_of(number: u16) -> [u8; 2]
    ensures { result ≡ bytes_of number }
{
    number.to_be_bytes()
}

// The addresses are the two bytes of the numbers 0000 to FFFD; FF FE and FF FF are none.
pub fn laws()
    ensures { AddressLaws }
{}
