// Bytes copied from one lent slice into another.
ghost use Rattle.std.specs.Prelude.{◌≡◌, ◌≤◌, ◌++◌, drop, length};

// Copies bytes to the front of a destination that has room for them, and returns how many there were.
pub fn copy_bytes(source: &[u8], destination: &mut [u8]) -> usize
    requires { length source.now ≤ length destination.old }
    ensures count { result ≡ length source.now }
    ensures contents { destination.new ≡ source.now ++ drop (length source.now) destination.old }
{
    let n = source.len();
    destination[..n].copy_from_slice(source);
    n
}
