// The image of a ledger.
ghost use Rattle.std.specs.Prelude.{◌≡◌, length};
ghost use Rattle.image.specs.Part.{is_image};
ghost use Rattle.state_image.specs.Ledger.{ledger_image};

use address_ledger::Ledger;
use image::{is_headed, number_at, put_head, put_number};

const KIND: u8 = b'L';

const SIZE: usize = 16;

// Whether the bytes are a ledger's image.
pub fn is_ledger(s: &[u8]) -> bool
    ensures { result ≡ is_image ledger_image s.now }
{
    is_headed(s, SIZE, KIND)
}

// The ledger in an image.
pub fn ledger_in(s: &[u8]) -> Ledger
    requires { length s.now ≡ 16 }
    ensures { result ≡ ledger_image.get s.now }
{
    Ledger {
        first: number_at(s, 2, 2) as usize,
        size: number_at(s, 4, 2) as usize,
        free: number_at(s, 6, 2) as usize,
        summary: number_at(s, 8, 8),
    }
}

// Stores a ledger.
pub fn put_ledger(dst: &mut [u8], ledger: Ledger)
    requires { length dst.old ≡ 16 }
    ensures { dst.new ≡ ledger_image.put ledger }
{
    put_head(dst, KIND);
    put_number(&mut dst[2..], 2, ledger.first as u64);
    put_number(&mut dst[4..], 2, ledger.size as u64);
    put_number(&mut dst[6..], 2, ledger.free as u64);
    put_number(&mut dst[8..], 8, ledger.summary);
}
