//! A source and a sink in memory, which fail at calls that are chosen beforehand.
ghost use Rattle.std.specs.Prelude.{◌≡◌, ◌↔◌, ◌<◌, ◌≤◌, ◌++◌, [], Some, min, length, take, drop, is_err, IfOk, OnErr, IsErr, IsErrOf, Contains};
ghost use Rattle.std.specs.Io.KnownBytes.{Consumes, Appends, Keeps, IsAtEnd};
ghost use Rattle.ix_types.specs.Count.{CountsWhere, counted};
ghost use Rattle.ix_io.specs.Failures.{sink_failed};

use crate::sink::{Sink, SinkError};
use crate::source::Source;
use ix_types::{Failed, Seq, count_up};
use std::alloc::Global;
use std::marker::Model;

/// Gives the bytes of a list, at most `piece` in a read. The reads whose numbers, counted from 1,
/// stand in `fails` fail, and no others. The counters stand still at the greatest `u64`.
#[derive(Debug, Drop)]
pub struct MemorySource {
    bytes: Seq<u8>,
    at: usize,
    piece: usize,
    fails: Seq<u64>,
    calls: u64,
    faults: u64,
}

impl Model for MemorySource {
    ghost use Rattle.std.specs.Prelude.{◌≤◌, length, drop};
    ghost use Rattle.ix_io.specs.Memory.{SourceState};

    ghost Value = { SourceState };

    ghost view = { λ s. record { left = drop s.at s.bytes; piece = s.piece; fails = s.fails; calls = s.calls; faults = s.faults } };

    ghost invariant = { λ s. (s.at ≤ length s.bytes) × (1 ≤ s.piece) };
}

impl MemorySource {
    /// A source of these bytes. A read gives at most `piece`, and the reads numbered in `fails` fail.
    pub fn new(bytes: Seq<u8>, piece: usize, fails: Seq<u64>) -> MemorySource
        requires { 1 ≤ piece }
        ensures { result ≡ record { left = bytes; piece = piece; fails = fails; calls = 0; faults = 0 } }
    {
        MemorySource {
            bytes,
            at: 0,
            piece,
            fails,
            calls: 0,
            faults: 0,
        }
    }

    /// The bytes that are left.
    pub fn left(&self) -> &[u8]
        ensures { result.now ≡ self.now.left }
    {
        &self.bytes.as_slice()[self.at..]
    }

    /// How many reads failed.
    pub fn faults(&self) -> u64
        ensures { result ≡ self.now.faults }
    {
        self.faults
    }
}

impl Source for MemorySource {
    ghost remaining = { λ s. Some s.left };

    ghost faults = { λ s. s.faults };

    fn read(&mut self, into: &mut [u8]) -> Result<usize, Failed>
        ensures room { IfOk result (λ n. n ≤ length into.new) }
        ensures taken { IfOk result (λ n. Consumes (Some self.old.left) (Some self.new.left) (take n into.new)) }
        ensures end { IfOk result (λ n. n ≡ 0 → 0 < length into.new → IsAtEnd (Some self.new.left)) }
        ensures kept { OnErr result (Keeps (Some self.old.left) (Some self.new.left)) }
        ensures cause { CountsWhere (is_err result) self.old.faults self.new.faults }
        // Exactly the chosen reads fail, and each other gives as much as it can.
        ensures fails { IsErr result ↔ Contains self.old.fails (counted self.old.calls) }
        ensures count { IfOk result (λ n.
            n ≡ min (min (length self.old.left) (length into.old)) self.old.piece) }
        ensures bytes { IfOk result (λ n. into.new ≡ take n self.old.left ++ drop n into.old) }
        ensures after_read { IfOk result (λ n. self.new ≡ record self.old {
          left = drop n self.old.left;
          calls = counted self.old.calls;
        }) }
        ensures after_fault { OnErr result (self.new ≡ record self.old {
          calls = counted self.old.calls;
          faults = counted self.old.faults;
        }) }
    {
        self.calls = count_up(self.calls);
        if self.fails.as_slice().contains(&self.calls) {
            self.faults = count_up(self.faults);
            return Err(Failed);
        }
        let left = &self.bytes.as_slice()[self.at..];
        let taken = left.len().min(into.len()).min(self.piece);
        into[..taken].copy_from_slice(&left[..taken]);
        self.at += taken;
        Ok(taken)
    }
}

/// Keeps what is written, at most `piece` bytes of a write. The writes whose numbers, counted from 1,
/// stand in `fails` fail, and no others. A write that ends for want of memory changes nothing and
/// isn't counted. The counters stand still at the greatest `u64`.
#[derive(Debug, Drop)]
pub struct MemorySink {
    written: Vec<u8>,
    piece: usize,
    fails: Seq<u64>,
    calls: u64,
    faults: u64,
}

impl Model for MemorySink {
    ghost use Rattle.std.specs.Prelude.{◌≤◌};
    ghost use Rattle.ix_io.specs.Memory.{SinkState};

    ghost Value = { SinkState };

    ghost view = { λ s. record { written = s.written.items; piece = s.piece; fails = s.fails; calls = s.calls; faults = s.faults } };

    ghost invariant = { λ s. 1 ≤ s.piece };
}

impl MemorySink {
    /// An empty sink. A write takes at most `piece`, and the writes numbered in `fails` fail.
    pub fn new(alloc: Global, piece: usize, fails: Seq<u64>) -> MemorySink
        requires { 1 ≤ piece }
        ensures { result ≡ record { written = []; piece = piece; fails = fails; calls = 0; faults = 0 } }
    {
        MemorySink {
            written: Vec::new(alloc),
            piece,
            fails,
            calls: 0,
            faults: 0,
        }
    }

    /// The bytes that were written.
    pub fn written(&self) -> &[u8]
        ensures { result.now ≡ self.now.written }
    {
        self.written.as_slice()
    }

    /// How many writes failed.
    pub fn faults(&self) -> u64
        ensures { result ≡ self.now.faults }
    {
        self.faults
    }
}

impl Sink for MemorySink {
    ghost contents = { λ s. Some s.written };

    ghost faults = { λ s. s.faults };

    fn write(&mut self, bytes: &[u8]) -> Result<usize, SinkError>
        ensures most { IfOk result (λ n. n ≤ length bytes.now) }
        ensures some { IfOk result (λ n. 0 < length bytes.now → 0 < n) }
        ensures grown { IfOk result (λ n. Appends (Some self.old.written) (Some self.new.written) (take n bytes.now)) }
        ensures kept { OnErr result (Keeps (Some self.old.written) (Some self.new.written)) }
        ensures cause { CountsWhere (sink_failed result) self.old.faults self.new.faults }
        // Exactly the chosen writes fail, and each other takes as much as it can.
        ensures fails { IsErrOf result SinkError.Failed ↔ Contains self.old.fails (counted self.old.calls) }
        ensures count { IfOk result (λ n. n ≡ min (length bytes.now) self.old.piece) }
        ensures after_write { IfOk result (λ n. self.new ≡ record self.old {
          written = self.old.written ++ take n bytes.now;
          calls = counted self.old.calls;
        }) }
        ensures after_fault { IsErrOf result SinkError.Failed → self.new ≡ record self.old {
          calls = counted self.old.calls;
          faults = counted self.old.faults;
        } }
        ensures after_memory { IsErrOf result SinkError.Memory → self.new ≡ self.old }
    {
        let call = count_up(self.calls);
        if self.fails.as_slice().contains(&call) {
            self.calls = call;
            self.faults = count_up(self.faults);
            return Err(SinkError::Failed);
        }
        let taken = bytes.len().min(self.piece);
        match self.written.extend_from_slice(&bytes[..taken]) {
            Ok(()) => {
                self.calls = call;
                Ok(taken)
            }
            Err(_) => Err(SinkError::Memory),
        }
    }
}
