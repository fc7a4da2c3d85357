// What became of a parameter.
ghost use Rattle.std.specs.Prelude.{◌≡◌, true, false};
ghost use Rattle.cojp.specs.Reading.{if_taken};

// Not in the payload, taken from it, or in it and discarded: in the published form that is a bad one, which is reported.
#[derive(Clone, Copy, PartialEq, Eq)]
pub enum Disposition {
    Absent,
    Taken,
    Discarded,
}

// Whether the value counts: that of an absent or discarded parameter does not.
pub fn is_taken(disposition: Disposition) -> bool
    ensures { result ≡ if_taken disposition true false }
{
    disposition == Disposition::Taken
}
