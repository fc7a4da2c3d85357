// Sets of link-layer keys, which the objects and the node share.
pub mod key_set;
pub mod seen;

ghost use Rattle.link_key.specs.set.KeyLaws.{KeyLaws};

pub use key_set::KeySet;

// What the layers above may rely on of the definitions.
pub fn laws()
    ensures { KeyLaws }
{}
