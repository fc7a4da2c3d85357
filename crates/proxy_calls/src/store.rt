// What a call answers, and what it stores, by its verdict.
ghost use Rattle.std.specs.Prelude.{◌≡◌, length, replicate};
ghost use Rattle.refusal.specs.Verdict.{verdict_number};
ghost use Rattle.state_image.specs.Proxy.{proxy_image, pledge_image};
ghost use Rattle.image.specs.Effects.{on_accept};

use image::clear;
use join_proxy::{Pledge, Proxy};
use refusal::Refusal;
use state_image::{put_pledge, put_proxy};

// The proxy after a call.
pub(crate) fn store_proxy(verdict: Result<(), Refusal>, proxy: Proxy, image: &mut [u8]) -> u32
    requires { length image.old ≡ 26 }
    ensures number { result ≡ verdict_number verdict }
    ensures image { image.new ≡ on_accept verdict image.old (proxy_image.put proxy) }
{
    match verdict {
        Ok(()) => {
            put_proxy(image, proxy);
            0
        }
        Err(why) => why.number() as u32,
    }
}

// A pledge as a result.
pub(crate) fn store_pledge(verdict: Result<(), Refusal>, pledge: Pledge, out: &mut [u8]) -> u32
    requires { length out.old ≡ 21 }
    ensures number { result ≡ verdict_number verdict }
    ensures out { out.new ≡ on_accept verdict (replicate 21 0) (pledge_image.put pledge) }
{
    match verdict {
        Ok(()) => {
            put_pledge(out, pledge);
            0
        }
        Err(why) => {
            clear(out);
            why.number() as u32
        }
    }
}
