// The fields of a record: numbers and unused bytes.
ghost use Rattle.std.specs.Prelude.{◌≡◌, ◌+◌, ◌≤◌, ◌==◌, length, drop};
ghost use Rattle.std.specs.List.{list_all};
ghost use Rattle.trace_record.specs.Layout.{number, blank};

// The number that `n` bytes from `at` on hold, big-endian.
pub(crate) fn number_at(s: &[u8], at: usize, n: usize) -> u64
    requires { (n ≤ 8) × (at + n ≤ length s.now) }
    ensures { result ≡ number n (drop at s.now) }
{
    let mut value: u64 = 0;
    for byte in &s[at..at + n] {
        value = value * 256 + u64::from(*byte);
    }
    value
}

fn is_zero(bytes: &[u8]) -> bool
    ensures { result ≡ list_all (λ x. x == 0) bytes.now }
{
    bytes.iter().all(|byte| *byte == 0)
}

// Whether the `n` bytes from `at` on are zero.
pub(crate) fn blank(s: &[u8], at: usize, n: usize) -> bool
    requires { at + n ≤ length s.now }
    ensures { result ≡ blank n (drop at s.now) }
{
    is_zero(&s[at..at + n])
}
