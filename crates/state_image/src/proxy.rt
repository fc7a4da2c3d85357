// The images of a join proxy and of a pledge.
ghost use Rattle.std.specs.Prelude.{◌≡◌, length};
ghost use Rattle.image.specs.Part.{is_image};
ghost use Rattle.join_proxy.specs.Keys.{count_of};
ghost use Rattle.state_image.specs.Proxy.{issued_of, proxy_image, pledge_image};

use image::{array_at, is_headed, number_at, put_array, put_byte, put_head, put_number};
use join_proxy::{Pledge, Proxy};

const KIND: u8 = b'P';

const SIZE: usize = 26;

const PLEDGE_KIND: u8 = b'G';

const NUMBERS: u64 = 4294967296;

// Whether the bytes are a proxy's image.
pub fn is_proxy(s: &[u8]) -> bool
    ensures { result ≡ is_image proxy_image s.now }
{
    is_headed(s, SIZE, KIND) && number_at(s, 18, 8) <= NUMBERS
}

// The proxy in an image.
pub fn proxy_in(s: &[u8]) -> Proxy
    requires { length s.now ≡ 26 }
    ensures { result ≡ proxy_image.get s.now }
{
    Proxy {
        key: array_at(s, 2),
        next: next_of(number_at(s, 18, 8)),
    }
}

// Stores a proxy.
pub fn put_proxy(dst: &mut [u8], proxy: Proxy)
    requires { length dst.old ≡ 26 }
    ensures { dst.new ≡ proxy_image.put proxy }
{
    put_head(dst, KIND);
    put_array(&mut dst[2..], &proxy.key);
    put_number(&mut dst[18..], 8, count_of(proxy.next));
}

fn next_of(issued: u64) -> Option<u32>
    ensures { result ≡ issued_of issued }
{
    u32::try_from(issued).ok()
}

fn count_of(next: Option<u32>) -> u64
    ensures { result ≡ count_of next }
{
    next.map_or(NUMBERS, u64::from)
}

// Stores a pledge.
pub fn put_pledge(dst: &mut [u8], pledge: Pledge)
    requires { length dst.old ≡ 21 }
    ensures { dst.new ≡ pledge_image.put pledge }
{
    put_head(dst, PLEDGE_KIND);
    put_array(&mut dst[2..], &pledge.interface);
    put_number(&mut dst[10..], 2, pledge.port as u64);
    put_byte(&mut dst[12..], pledge.len);
    put_array(&mut dst[13..], &pledge.token);
}
