// Issuing: the option body that goes with a pledge's request.
ghost use Rattle.std.specs.Prelude.{◌≡◌};
ghost use Rattle.join_proxy.specs.Issuing.{Issues, raised, unissued};

use crate::body::{text, write_body};
use crate::proxy::Proxy;
use refusal::Refusal;

// What issuing answers, and the proxy after it.
// Kept: not Result<(usize, Proxy), Refusal>: `Issues.goes_on` and the law `refused-issue` name the proxy after a refusal too.
#[derive(Clone, Copy)]
pub struct IssueResult {
    pub written: Result<usize, Refusal>,
    pub proxy: Proxy,
}

impl Proxy {
    // Writes the body for a pledge's interface identifier, port and token: RANGE (token over 8), SPENT, ROOM, or its length, 31.
    pub fn issue(self, interface: [u8; 8], port: u16, token: &[u8], dst: &mut [u8]) -> IssueResult
        ensures { Issues self interface port token.now dst.old result dst.new }
    {
        if 8 < token.len() {
            return self.unissued(Refusal::Range);
        }
        let Some(number) = self.next else {
            return self.unissued(Refusal::Spent);
        };
        if dst.len() < 31 {
            return self.unissued(Refusal::Room);
        }
        let key = self.key;
        write_body(key, number.to_be_bytes(), text(interface, port, token), dst);
        IssueResult {
            written: Ok(31),
            proxy: Proxy {
                key,
                next: after(number),
            },
        }
    }

    // A refused issue leaves the proxy.
    fn unissued(self, why: Refusal) -> IssueResult
        ensures { result ≡ unissued why self }
    {
        IssueResult {
            written: Err(why),
            proxy: self,
        }
    }
}

// The number after this one; none after 4,294,967,295.
fn after(number: u32) -> Option<u32>
    ensures { result ≡ raised number }
{
    number.checked_add(1)
}
