//! Counts of what happened outside.
ghost use Rattle.std.specs.Prelude.{◌≡◌};
ghost use Rattle.ix_types.specs.Count.{counted};

/// The count with one more, which stands still at the greatest `u64`.
pub fn count_up(count: u64) -> u64
    ensures { result ≡ counted count }
{
    count.saturating_add(1)
}
