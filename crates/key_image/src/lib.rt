// Keys as parts of images: a key with its additional information, a key set, a key set with counters. Each is read and judged from a place
// of a lent slice on, and put at the front of one.
#![tactic(auto)]

mod additional_info;
mod counted_set;
mod key;
mod key_set;

ghost use Rattle.key_image.specs.Laws.{KeyImages};

pub use counted_set::{
    counted_set_at, counter_at, is_counted_set, put_counted_set, put_eight_counters,
};
pub use key::{is_key, key_at, put_key};
pub use key_set::{is_key_set, key_set_at, put_key_set};

// What was stored is loaded as it was, and there is one image for each value.
pub fn laws()
    ensures { KeyImages }
{}
