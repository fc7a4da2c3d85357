// A unit as join proxy: it forwards a pledge's join traffic and keeps no state per pledge
// (document 004, section 10; document 02, request 7).
// What it needs to find the pledge again goes with the request as an option of 31 bytes, sealed under a key of the proxy's own.
#![tactic(auto)]

mod body;
mod issuing;
mod judging;
mod proxy;

ghost use Rattle.join_proxy.specs.Example.{ProxyExample};
ghost use Rattle.join_proxy.specs.Laws.{ProxyLaws};

pub use issuing::IssueResult;
pub use judging::{JudgeResult, Pledge};
pub use proxy::{Proxy, SetKeyResult};

// What holds of a proxy after any list of calls, and for which bodies a response is forwarded.
pub fn laws()
    ensures { ProxyLaws }
{
    aes_ccm::laws();
}

// A day of a proxy, with each refusal but SEAL, two keys, and what the laws say of bodies 63 and 64 issues old.
pub fn two_keys_example()
    ensures { ProxyExample }
{
    laws();
}
