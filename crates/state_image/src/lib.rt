// The images of what a caller keeps between calls: the address ledger and the join proxy; and of the pledge that a proxy names.
#![tactic(auto)]

mod ledger;
mod proxy;

ghost use Rattle.state_image.specs.Laws.{StateImages};

pub use ledger::{is_ledger, ledger_in, put_ledger};
pub use proxy::{is_proxy, proxy_in, put_pledge, put_proxy};

// What was stored is loaded as it was, and there is one image for each value.
pub fn laws()
    ensures { StateImages }
{}
