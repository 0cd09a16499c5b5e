//! What the words of these contracts come to. Each law is the contract of a function that does nothing.
ghost use Rattle.std.specs.Prelude.{◌≡◌, ◌+◌, ◌-◌, ◌^◌, ◌<◌, ◌≤◌, ◌++◌, ℕ, List, Some, length, take, drop, true};
ghost use Rattle.ix_types.specs.Count.{CountsWhere};
ghost use Rattle.ix_io.specs.Transfer.{intake_of, IsWithin, TakesAtMost, AppendsPart};
ghost use Rattle.ix_io.specs.declared.transfer.Intake.TheVariants.{All, TooLarge};

/// Up to its greatest value a count is greater after each failure.
pub fn a_failure_is_counted()
    ensures { (before now : ℕ) → CountsWhere true before now → before < 2 ^ 64 - 1 → before < now }
{}

/// An input is whole exactly up to the limit.
pub fn the_limit_decides()
    ensures whole { (limit : ℕ) (bytes : List ℕ) → length bytes ≤ limit → intake_of limit bytes ≡ All bytes }
    ensures too_large { (limit : ℕ) (bytes : List ℕ) → limit < length bytes → intake_of limit bytes ≡ TooLarge }
    ensures within { (limit : ℕ) (bytes : List ℕ) → IsWithin limit (All bytes) → length bytes ≤ limit }
{}

/// Of told bytes at most so many go, from the front.
pub fn at_most_so_many_are_taken()
    ensures { (bytes left : List ℕ) (most : ℕ) → TakesAtMost (Some bytes) (Some left) most
        → (taken : ℕ) × (taken ≤ most) × (left ≡ drop taken bytes) × (length left + taken ≡ length bytes) }
{}

/// Told contents stay in front, and gain fewer bytes than there were to write.
pub fn a_part_is_not_all()
    ensures kept { (old new bytes : List ℕ) → AppendsPart (Some old) (Some new) bytes → take (length old) new ≡ old }
    ensures fewer { (old new bytes : List ℕ) → AppendsPart (Some old) (Some new) bytes → length new < length old + length bytes }
{}
