// The form that a node speaks, in an image.
ghost use Rattle.std.specs.Prelude.{◌≡◌, ◌+◌, ◌≤◌, length, drop};
ghost use Rattle.byte_io.specs.Write.{Wrote};
ghost use Rattle.node_image.specs.Version.{version_of, version_part};

use image::put_byte;
use protocol_version::Version;

// Kept: total, since `version_part.get` gives a byte over 1, which no image has, a meaning too.
fn version_of(n: u8) -> Version
    ensures { result ≡ version_of n }
{
    match n {
        0 => Version::Draft,
        _ => Version::Published,
    }
}

// Whether the byte at a place is a form.
pub fn is_version(src: &[u8], at: usize) -> bool
    requires { at + 1 ≤ length src.now }
    ensures { result ≡ version_part.good (drop at src.now) }
{
    src[at] <= 1
}

// The form at a place.
pub fn version_at(src: &[u8], at: usize) -> Version
    requires { at + 1 ≤ length src.now }
    ensures { result ≡ version_part.get (drop at src.now) }
{
    version_of(src[at])
}

// Writes a form.
pub fn put_version(dst: &mut [u8], version: Version)
    requires { 1 ≤ length dst.old }
    ensures { Wrote (version_part.put version) dst.old 1 dst.new }
{
    put_byte(dst, version as u8);
}
