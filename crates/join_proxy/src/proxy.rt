// A join proxy and its key.
ghost use Rattle.std.specs.Prelude.{◌≡◌};
ghost use Rattle.lemmas.specs.lists.Same.{same};
ghost use Rattle.join_proxy.specs.Keys.{fresh, set_key};

use refusal::Refusal;

#[derive(Clone, Copy)]
pub struct Proxy {
    pub key: [u8; 16],
    // the number of the next body, as many as were issued with the key before it; None where all 4,294,967,296 were
    pub next: Option<u32>,
}

// What setting a key answers, and the proxy after it.
// Kept: not Result<Proxy, Refusal>: `set_key`, `called` and the law `refused-leaves` name the proxy after a refusal too.
#[derive(Clone, Copy)]
pub struct SetKeyResult {
    pub verdict: Result<(), Refusal>,
    pub proxy: Proxy,
}

impl Proxy {
    // A proxy with this key, nothing issued.
    pub fn new(key: [u8; 16]) -> Proxy
        ensures { result ≡ fresh key }
    {
        Proxy { key, next: Some(0) }
    }

    // Sets a key, and numbers begin at 0 again. The key in use is RANGE.
    pub fn set_key(self, key: [u8; 16]) -> SetKeyResult
        ensures { result ≡ set_key self key }
    {
        if same_key(self.key, key) {
            return SetKeyResult {
                verdict: Err(Refusal::Range),
                proxy: self,
            };
        }
        SetKeyResult {
            verdict: Ok(()),
            proxy: Proxy::new(key),
        }
    }
}

// Whether two keys are the same. All sixteen bytes are compared, whatever they are.
// Kept: not `a == b`, which may stop at the first byte that differs: bindings/pothatch.h says that a proxy's key is compared whole.
fn same_key(a: [u8; 16], b: [u8; 16]) -> bool
    ensures { result ≡ same a b }
{
    let mut d: u8 = 0;
    for (x, y) in a.iter().zip(&b) {
        d |= *x ^ *y;
    }
    d == 0
}
