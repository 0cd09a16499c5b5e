//! What takes bytes.
ghost use Rattle.std.specs.Prelude.{◌≡◌, ◌<◌, ◌≤◌, ℕ, List, Option, length, take, IfOk, OnErr};
ghost use Rattle.std.specs.Io.KnownBytes.{Appends, Keeps};
ghost use Rattle.ix_types.specs.Count.{CountsWhere};
ghost use Rattle.ix_io.specs.Failures.{sink_failed};

use thiserror::Error;

/// Why a sink took nothing.
#[derive(Clone, Copy, Debug, PartialEq, Eq, Error)]
pub enum SinkError {
    /// The sink failed.
    #[error("failed")]
    Failed,
    /// Memory was wanting.
    #[error("memory")]
    Memory,
}

/// Takes bytes in pieces. It counts its own failures, and code that is generic can't raise that count.
pub trait Sink {
    /// The bytes that were written, where the sink tells them. One that tells goes on telling.
    ghost contents: { Self → Option (List ℕ) };

    /// How often it has failed.
    ghost faults: { Self → ℕ };

    /// Takes a front of the bytes and answers how many: at least one, where there is one.
    /// With an error nothing was taken. Want of memory is no failure of the sink.
    fn write(&mut self, bytes: &[u8]) -> Result<usize, SinkError>
        ensures most { IfOk result (λ n. n ≤ length bytes.now) }
        ensures some { IfOk result (λ n. 0 < length bytes.now → 0 < n) }
        ensures grown { IfOk result (λ n.
            Appends (contents self.old) (contents self.new) (take n bytes.now)) }
        ensures kept { OnErr result (Keeps (contents self.old) (contents self.new)) }
        ensures cause { CountsWhere (sink_failed result) (faults self.old) (faults self.new) };
}
