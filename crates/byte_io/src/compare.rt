// Slices compared from the front.
ghost use Rattle.std.specs.Prelude.{◌≡◌};
ghost use Rattle.lemmas.specs.lists.Same.{same};

// Whether two slices are the same, byte by byte.
pub fn same_bytes(a: &[u8], b: &[u8]) -> bool
    ensures { result ≡ same a.now b.now }
{
    if a.len() != b.len() {
        return false;
    }
    // Kept: a loop and not `==`. The must-fail edit changes an index of it; other bodies in place of `==` were refused, right ones too.
    for i in 0..a.len() {
        if a[i] != b[i] {
            return false;
        }
    }
    true
}
