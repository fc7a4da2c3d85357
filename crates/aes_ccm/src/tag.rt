// Tags compared.
ghost use Rattle.std.specs.Prelude.{◌≡◌, length};
ghost use Rattle.lemmas.specs.lists.Same.{same};

// Whether two tags are the same. All eight bytes are compared, whatever they are.
// Kept: not `s == u`, which may stop at the first byte that differs: docs/TRUST.md says that the tag is compared over its whole length.
pub(crate) fn same_tag(s: &[u8], u: [u8; 8]) -> bool
    requires { length s.now ≡ 8 }
    ensures { result ≡ same s.now u }
{
    let mut d: u8 = 0;
    for (x, y) in s.iter().zip(&u) {
        d |= *x ^ *y;
    }
    d == 0
}
