// Numbers of eight bytes that stand for codes of one.
ghost use Rattle.std.specs.Prelude.{◌≡◌};
ghost use Rattle.pothatch.specs.Wide.{code_of, identifier_of};

// The code of a version, role or frame type, or whether there is a network identifier.
pub(crate) fn code_of(number: u64) -> u8
    ensures { result ≡ code_of number }
{
    u8::try_from(number).unwrap_or(u8::MAX)
}

// The identifier of a key.
pub(crate) fn identifier_of(number: u64) -> u8
    ensures { result ≡ identifier_of number }
{
    u8::try_from(number).unwrap_or(0)
}
