// Link-layer key sets as a parameter.
ghost use Rattle.std.specs.Prelude.{◌≡◌};
ghost use Rattle.cojp.specs.KeySet.{no_keys_parameter};

use crate::disposition::Disposition;
use link_key::set::KeySet;
use link_key::set::key_set::no_keys;
use refusal::Refusal;

// The value counts where it is taken.
#[derive(Clone, Copy)]
pub struct KeysParameter {
    pub disposition: Disposition,
    pub value: KeySet,
}

// Kept: `cojp_read` stores the set as it was read; a set that is handed on is copied at each step, a tenth of a short read.
// Beside a refusal the parameter is absent, and `next`, where the bytes go on after the value, is 0.
#[derive(Clone, Copy)]
pub struct KeysRead {
    pub verdict: Result<(), Refusal>,
    pub parameter: KeysParameter,
    pub next: usize,
}

// A parameter with no value.
pub fn no_key_set(report: Disposition) -> KeysParameter
    ensures { result ≡ no_keys_parameter report }
{
    KeysParameter {
        disposition: report,
        value: no_keys(),
    }
}
