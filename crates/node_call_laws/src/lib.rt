// That values which calls from C lead to have images.
#![tactic(auto)]

ghost use Rattle.node_call_laws.specs.Fits.{CallsFit};

// Whatever bytes are read, what is read has an image; every call leaves a node that has one with one, and so it is with what it hands back.
pub fn calls_valid_law()
    ensures { CallsFit }
{
    link_key::set::laws();
}
