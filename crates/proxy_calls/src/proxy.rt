// The join proxy.
ghost use Rattle.proxy_calls.specs.Proxy.{Makes, SetsKey, IssuesIn, JudgesIn};

use crate::store::{store_pledge, store_proxy};
use image::{RANGE, clear};
use join_proxy::Proxy;
use state_image::{is_proxy, proxy_in, put_proxy};

// Makes a proxy with this key, nothing issued.
pub fn proxy_make(key: &[u8], proxy: &mut [u8]) -> u32
    ensures { Makes key.now proxy.old result proxy.new }
{
    if proxy.len() != 26 {
        return RANGE;
    }
    let Ok(key) = <[u8; 16]>::try_from(key) else {
        clear(proxy);
        return RANGE;
    };
    put_proxy(proxy, Proxy::new(key));
    0
}

// Sets a key, and numbers begin at 0 again.
pub fn proxy_set_key(proxy: &mut [u8], key: &[u8]) -> u32
    ensures { SetsKey proxy.old key.now result proxy.new }
{
    let Ok(key) = <[u8; 16]>::try_from(key) else {
        return RANGE;
    };
    if !is_proxy(proxy) {
        return RANGE;
    }
    let done = proxy_in(proxy).set_key(key);
    store_proxy(done.verdict, done.proxy, proxy)
}

// Issues the option body for a pledge's interface identifier, port and token.
pub fn proxy_issue(
    proxy: &mut [u8],
    interface: &[u8],
    port: u64,
    token: &[u8],
    dst: &mut [u8],
) -> u32
    ensures { IssuesIn proxy.old interface.now port token.now dst.old result
        proxy.new dst.new }
{
    let Ok(interface) = <[u8; 8]>::try_from(interface) else {
        return RANGE;
    };
    let Ok(port) = u16::try_from(port) else {
        return RANGE;
    };
    if !is_proxy(proxy) {
        return RANGE;
    }
    let done = proxy_in(proxy).issue(interface, port, token, dst);
    match done.written {
        Ok(_) => {
            put_proxy(proxy, done.proxy);
            0
        }
        Err(why) => why.number() as u32,
    }
}

// Whom a response with this body goes to.
pub fn proxy_judge(proxy: &[u8], body: &[u8], pledge: &mut [u8]) -> u32
    ensures { JudgesIn proxy.now body.now pledge.old result pledge.new }
{
    if pledge.len() != 21 {
        return RANGE;
    }
    if !is_proxy(proxy) {
        clear(pledge);
        return RANGE;
    }
    let judged = proxy_in(proxy).judge(body);
    store_pledge(judged.verdict, judged.pledge, pledge)
}
