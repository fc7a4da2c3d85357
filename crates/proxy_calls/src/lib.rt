// The join proxy, for C: the proxy is an image in lent bytes. RANGE comes first where what was lent is not of its size or no image; then
// each call is the proxy's own.
#![tactic(auto)]

mod proxy;
mod store;

ghost use Rattle.proxy_calls.specs.Laws.{ProxyRefusals};

pub use proxy::{proxy_issue, proxy_judge, proxy_make, proxy_set_key};

// A refused call leaves proxy and destination byte for byte, and its results all zero.
pub fn refusals_keep_law()
    ensures { ProxyRefusals }
{
    cipher_calls::refusals_keep_law();
}
