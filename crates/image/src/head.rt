// What stands in front of an image: a letter for its kind, and the number of the layout.
ghost use Rattle.std.specs.Prelude.{◌&&◌, [], ◌∷◌, ◌≡◌, ◌≤◌, eqb, length};
ghost use Rattle.byte_io.specs.Write.{Wrote};
ghost use Rattle.image.specs.Part.{layout, is_headed};

const LAYOUT: u8 = 1;

// Writes kind and layout.
pub fn put_head(dst: &mut [u8], kind: u8)
    requires { 2 ≤ length dst.old }
    ensures { Wrote (kind ∷ layout ∷ []) dst.old 2 dst.new }
{
    dst[0] = kind;
    dst[1] = LAYOUT;
}

// Whether the bytes are as many as the struct has, and of this kind and layout.
pub fn is_headed(s: &[u8], size: usize, kind: u8) -> bool
    requires { 2 ≤ size }
    ensures { result ≡ (eqb (length s.now) size && is_headed kind s.now) }
{
    s.len() == size && s[0] == kind && s[1] == LAYOUT
}
