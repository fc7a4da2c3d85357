// The images of what node calls answer with.
ghost use Rattle.std.specs.Prelude.{◌++◌, ◌≡◌, ◌≤◌, length};
ghost use Rattle.byte_io.specs.Write.{Wrote};
ghost use Rattle.byte_io.specs.BigEndian.{bytes_of};
ghost use Rattle.object_image.specs.Codes.{disposition_part};
ghost use Rattle.node_image.specs.Answers.{dispositions_image, frame_key_image};

use cojp::Disposition;
use image::{put_head, put_number};
use key_image::put_key;
use link_key::Key;
use node_parameters::Dispositions;
use object_image::put_disposition;

const DISPOSITIONS_KIND: u8 = b'R';

const FRAME_KEY_KIND: u8 = b'K';

// Writes the reports on prefix, blacklist and join rate, and how many labels were passed over.
fn put_later(
    dst: &mut [u8],
    prefix: Disposition,
    blacklist: Disposition,
    rate: Disposition,
    passed: u64,
)
    requires { 11 ≤ length dst.old }
    ensures { Wrote
        (((disposition_part.put prefix ++ disposition_part.put blacklist) ++ disposition_part.put rate) ++ bytes_of 8 passed)
        dst.old 11 dst.new }
{
    put_disposition(dst, prefix);
    put_disposition(&mut dst[1..], blacklist);
    put_disposition(&mut dst[2..], rate);
    put_number(&mut dst[3..], 8, passed);
}

// Writes the reports on key set, short address, JRC address and network identifier.
fn put_first(
    dst: &mut [u8],
    keys: Disposition,
    address: Disposition,
    jrc: Disposition,
    network: Disposition,
)
    requires { 4 ≤ length dst.old }
    ensures { Wrote
        (((disposition_part.put keys ++ disposition_part.put address) ++ disposition_part.put jrc) ++ disposition_part.put network)
        dst.old 4 dst.new }
{
    put_disposition(dst, keys);
    put_disposition(&mut dst[1..], address);
    put_disposition(&mut dst[2..], jrc);
    put_disposition(&mut dst[3..], network);
}

// Stores reports.
pub fn put_dispositions(dst: &mut [u8], reports: Dispositions)
    requires { length dst.old ≡ 17 }
    ensures { dst.new ≡ dispositions_image.put reports }
{
    put_head(dst, DISPOSITIONS_KIND);
    put_first(
        &mut dst[2..],
        reports.keys,
        reports.address,
        reports.jrc,
        reports.network,
    );
    put_later(
        &mut dst[6..],
        reports.prefix,
        reports.blacklist,
        reports.rate,
        reports.unknown,
    );
}

// Stores a frame's key and its counter.
pub fn put_frame_key(dst: &mut [u8], key: Key, counter: u32)
    requires { length dst.old ≡ 33 }
    ensures { dst.new ≡ frame_key_image.put (key, counter) }
{
    put_head(dst, FRAME_KEY_KIND);
    put_key(&mut dst[2..], key);
    put_number(&mut dst[29..], 4, counter as u64);
}
