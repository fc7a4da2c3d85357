// The join proxy.
ghost use Rattle.proxy_calls.specs.Proxy.{Makes, SetsKey, IssuesIn, JudgesIn};

// Makes a proxy with this key, nothing issued.
#[unsafe(no_mangle)]
pub extern "C" fn pothatch_proxy_make(key: &[u8], proxy: &mut [u8]) -> u32
    ensures { Makes key.now proxy.old result proxy.new }
{
    pothatch::proxy::pothatch_proxy_make(key, proxy)
}

// Sets a key, and numbers begin at 0 again.
#[unsafe(no_mangle)]
pub extern "C" fn pothatch_proxy_set_key(proxy: &mut [u8], key: &[u8]) -> u32
    ensures { SetsKey proxy.old key.now result proxy.new }
{
    pothatch::proxy::pothatch_proxy_set_key(proxy, key)
}

// Issues the option body for a pledge's interface identifier, port and token.
#[unsafe(no_mangle)]
pub extern "C" fn pothatch_proxy_issue(
    proxy: &mut [u8],
    interface_id: &[u8],
    port: u64,
    token: &[u8],
    dst: &mut [u8],
) -> u32
    ensures { IssuesIn proxy.old interface_id.now port token.now dst.old result
        proxy.new dst.new }
{
    pothatch::proxy::pothatch_proxy_issue(proxy, interface_id, port, token, dst)
}

// Whom a response with this body goes to.
#[unsafe(no_mangle)]
pub extern "C" fn pothatch_proxy_judge(proxy: &[u8], body: &[u8], pledge: &mut [u8]) -> u32
    ensures { JudgesIn proxy.now body.now pledge.old result pledge.new }
{
    pothatch::proxy::pothatch_proxy_judge(proxy, body, pledge)
}
