// The kept count of free addresses: it moves by one, and is then cut to 0 or how many addresses count.
ghost use Rattle.std.specs.Prelude.{◌≡◌, ◌+◌, ◌-◌};
ghost use Rattle.address_ledger.specs.Ledger.{cut};

// One less.
pub(crate) fn one_less(free: usize, count: usize) -> usize
    ensures { result ≡ cut count (free - 1) }
{
    free.saturating_sub(1).min(count)
}

// One more; a count that cannot grow is cut.
pub(crate) fn one_more(free: usize, count: usize) -> usize
    ensures { result ≡ cut count (free + 1) }
{
    free.saturating_add(1).min(count)
}
