//! What gives bytes.
ghost use Rattle.std.specs.Prelude.{◌≡◌, ◌<◌, ◌≤◌, ℕ, List, Option, length, take, is_err, IfOk, OnErr};
ghost use Rattle.std.specs.Io.KnownBytes.{Consumes, Keeps, IsAtEnd};
ghost use Rattle.ix_types.specs.Count.{CountsWhere};

use ix_types::Failed;

/// Gives bytes in pieces. It counts its own failures, and code that is generic can't raise that count.
pub trait Source {
    /// The bytes that are left, where the source tells them. One that tells goes on telling.
    ghost remaining: { Self → Option (List ℕ) };

    /// How often it has failed.
    ghost faults: { Self → ℕ };

    /// Puts the next bytes at the front of `into` and answers how many. With room, 0 is the end.
    /// A failed read takes nothing. What stands in `into` behind the bytes that were read,
    /// and anywhere after a failed read, isn't said.
    fn read(&mut self, into: &mut [u8]) -> Result<usize, Failed>
        ensures room { IfOk result (λ n. n ≤ length into.new) }
        ensures taken { IfOk result (λ n.
            Consumes (remaining self.old) (remaining self.new) (take n into.new)) }
        ensures end { IfOk result (λ n. n ≡ 0 → 0 < length into.new → IsAtEnd (remaining self.new)) }
        ensures kept { OnErr result (Keeps (remaining self.old) (remaining self.new)) }
        ensures cause { CountsWhere (is_err result) (faults self.old) (faults self.new) };
}
