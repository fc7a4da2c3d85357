// What is written of a parameter depends on its report.
ghost use Rattle.std.specs.Prelude.{◌≡◌};
ghost use Rattle.cojp.specs.Writing.{missing};

use cojp::{Disposition, is_taken};

// A parameter of the other form is never taken.
pub(crate) fn is_missing(report: Disposition) -> bool
    ensures { result ≡ missing report }
{
    !is_taken(report)
}
