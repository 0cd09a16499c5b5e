//! std's readers and writers as sources and sinks.
ghost use Rattle.std.specs.Prelude.{◌≡◌, ◌<◌, ◌≤◌, length, take, is_err, IfOk, OnErr, IsErrOf};
ghost use Rattle.std.specs.Io.KnownBytes.{Consumes, Appends, Keeps, IsAtEnd};
ghost use Rattle.ix_types.specs.Count.{CountsWhere, counted};
ghost use Rattle.ix_io.specs.Failures.{sink_failed};

use crate::sink::{Sink, SinkError};
use crate::source::Source;
use ix_types::{Failed, count_up};
use std::io::{ErrorKind, Read, Write};
use std::marker::Model;

/// How often a read or a write is tried that a signal interrupts.
const TRIES: u32 = 100;

/// Gives the bytes of a reader, and tells of them what the reader tells.
/// A read that a signal interrupts is tried up to 100 times. The source fails exactly where the reader
/// answers another error, or was interrupted each time.
#[derive(Debug, Drop)]
pub struct ReaderSource<R> {
    reader: R,
    faults: u64,
}

impl<R> Model for ReaderSource<R> {
    ghost use Rattle.ix_io.specs.Adapter.{OverReader};

    ghost Value = { OverReader R };

    ghost view = { λ s. record { reader = s.reader; faults = s.faults } };
}

impl<R: Read> ReaderSource<R> {
    /// A source over a reader.
    pub fn new(reader: R) -> ReaderSource<R>
        ensures { result ≡ record { reader = reader; faults = 0 } }
    {
        ReaderSource { reader, faults: 0 }
    }

    /// How many reads failed. The count stands still at the greatest `u64`.
    pub fn faults(&self) -> u64
        ensures { result ≡ self.now.faults }
    {
        self.faults
    }

    /// The reader.
    pub fn into_inner(self) -> R
        ensures { result ≡ self.reader }
    {
        let ReaderSource { reader, faults: _ } = self;
        reader
    }
}

impl<R: Read> Source for ReaderSource<R> {
    ghost remaining = { λ s. R.remaining s.reader };

    ghost faults = { λ s. s.faults };

    fn read(&mut self, into: &mut [u8]) -> Result<usize, Failed>
        ensures room { IfOk result (λ n. n ≤ length into.new) }
        ensures taken { IfOk result (λ n.
            Consumes (R.remaining self.old.reader) (R.remaining self.new.reader) (take n into.new)) }
        ensures end { IfOk result (λ n. n ≡ 0 → 0 < length into.new → IsAtEnd (R.remaining self.new.reader)) }
        ensures kept { OnErr result (Keeps (R.remaining self.old.reader) (R.remaining self.new.reader)) }
        ensures cause { CountsWhere (is_err result) self.old.faults self.new.faults }
        // A failed read is counted once.
        ensures next_count { OnErr result (self.new.faults ≡ counted self.old.faults) }
    {
        match read_retrying(&mut self.reader, into) {
            Ok(taken) => Ok(taken),
            Err(Failed) => {
                self.faults = count_up(self.faults);
                Err(Failed)
            }
        }
    }
}

/// One read, tried again where a signal interrupts it.
fn read_retrying<R: Read>(reader: &mut R, into: &mut [u8]) -> Result<usize, Failed>
    ensures room { IfOk result (λ n. n ≤ length into.new) }
    ensures taken { IfOk result (λ n.
        Consumes (R.remaining reader.old) (R.remaining reader.new) (take n into.new)) }
    ensures end { IfOk result (λ n. n ≡ 0 → 0 < length into.new → IsAtEnd (R.remaining reader.new)) }
    ensures kept { OnErr result (Keeps (R.remaining reader.old) (R.remaining reader.new)) }
{
    for _ in 0..TRIES {
        match reader.read(into) {
            Ok(taken) => return Ok(taken),
            Err(fault) => {
                if fault.kind() != ErrorKind::Interrupted {
                    return Err(Failed);
                }
            }
        }
    }
    Err(Failed)
}

/// Writes to a writer, and tells of what was written what the writer tells.
/// A write that a signal interrupts is tried up to 100 times. The sink fails exactly where the writer
/// answers another error, was interrupted each time, or takes nothing of a piece that isn't empty.
#[derive(Debug, Drop)]
pub struct WriterSink<W> {
    writer: W,
    faults: u64,
}

impl<W> Model for WriterSink<W> {
    ghost use Rattle.ix_io.specs.Adapter.{OverWriter};

    ghost Value = { OverWriter W };

    ghost view = { λ s. record { writer = s.writer; faults = s.faults } };
}

impl<W: Write> WriterSink<W> {
    /// A sink over a writer.
    pub fn new(writer: W) -> WriterSink<W>
        ensures { result ≡ record { writer = writer; faults = 0 } }
    {
        WriterSink { writer, faults: 0 }
    }

    /// How many writes failed. The count stands still at the greatest `u64`.
    pub fn faults(&self) -> u64
        ensures { result ≡ self.now.faults }
    {
        self.faults
    }

    /// The writer.
    pub fn into_inner(self) -> W
        ensures { result ≡ self.writer }
    {
        let WriterSink { writer, faults: _ } = self;
        writer
    }
}

impl<W: Write> Sink for WriterSink<W> {
    ghost contents = { λ s. W.contents s.writer };

    ghost faults = { λ s. s.faults };

    fn write(&mut self, bytes: &[u8]) -> Result<usize, SinkError>
        ensures most { IfOk result (λ n. n ≤ length bytes.now) }
        ensures some { IfOk result (λ n. 0 < length bytes.now → 0 < n) }
        ensures grown { IfOk result (λ n.
            Appends (W.contents self.old.writer) (W.contents self.new.writer) (take n bytes.now)) }
        ensures kept { OnErr result (Keeps (W.contents self.old.writer) (W.contents self.new.writer)) }
        ensures cause { CountsWhere (sink_failed result) self.old.faults self.new.faults }
        // A failed write is counted once, and none ends for want of memory.
        ensures next_count { OnErr result (self.new.faults ≡ counted self.old.faults) }
        ensures never_memory { OnErr result (IsErrOf result SinkError.Failed) }
    {
        match write_retrying(&mut self.writer, bytes) {
            Ok(taken) if taken > 0 || bytes.is_empty() => Ok(taken),
            _ => {
                self.faults = count_up(self.faults);
                Err(SinkError::Failed)
            }
        }
    }
}

/// One write, tried again where a signal interrupts it.
fn write_retrying<W: Write>(writer: &mut W, bytes: &[u8]) -> Result<usize, Failed>
    ensures most { IfOk result (λ n. n ≤ length bytes.now) }
    ensures grown { IfOk result (λ n.
        Appends (W.contents writer.old) (W.contents writer.new) (take n bytes.now)) }
    ensures kept { OnErr result (Keeps (W.contents writer.old) (W.contents writer.new)) }
{
    for _ in 0..TRIES {
        match writer.write(bytes) {
            Ok(taken) => return Ok(taken),
            Err(fault) => {
                if fault.kind() != ErrorKind::Interrupted {
                    return Err(Failed);
                }
            }
        }
    }
    Err(Failed)
}
