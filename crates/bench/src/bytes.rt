// Bytes that C lends, copied into an array.

// The first `N` bytes; zeros where there are fewer.
pub(crate) fn first_bytes<const N: usize>(bytes: &[u8]) -> [u8; N] {
    let mut copy = [0u8; N];
    for (to, from) in copy.iter_mut().zip(bytes.iter()) {
        *to = *from;
    }
    copy
}
