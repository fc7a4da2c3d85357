// A recorded trace replayed, for C: the node that the calls of its records give, and the report, as images in lent bytes.
#![tactic(auto)]

mod counts;
mod replayed;
mod replays;

ghost use Rattle.replay_calls.specs.Laws.{ReplayedImages, ReplayRefusals};

pub use replayed::put_replayed;
pub use replays::replay;

// What was stored is loaded as it was, and there is one image for each value.
pub fn laws()
    ensures { ReplayedImages }
{
    object_image::laws();
}

// A refused replay leaves its results all zero.
pub fn refusals_keep_law()
    ensures { ReplayRefusals }
{}
