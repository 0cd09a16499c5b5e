//! What no clause says, and what the clauses come to for each source and sink.
ghost use Rattle.std.specs.Prelude.{◌≡◌, ◌-◌, ◌^◌, ◌<◌, ◌++◌, IfOk, IfSome, OnOk, Some};
ghost use Rattle.ix_types.specs.Count.{CountsWhere};
ghost use Rattle.ix_io.specs.Failures.{read_failed, sink_failed};
ghost use Rattle.ix_io.specs.Transfer.{intake_of};

use crate::transfer::{Intake, ReadError, read_all, write_all};
use crate::{MemorySink, MemorySource, ReaderSource, Sink, SinkError, Source, WriterSink};
use ix_types::{Failed, Seq};
use std::alloc::Global;
use std::io;
use std::io::{ErrorKind, Read, Write};
use std::process::Abort;

/// A reader or a writer that is interrupted at each of its first calls, as many as said, fails at the
/// call after them, where it is broken, and at all others does what the one within does.
#[derive(Drop)]
struct Faulty<T> {
    inner: T,
    interrupted: u32,
    is_broken: bool,
    calls: u32,
}

impl<T> Faulty<T> {
    fn stop(&mut self) -> io::Result<()> {
        self.calls = self.calls.saturating_add(1);
        if self.calls <= self.interrupted {
            return Err(io::Error::new(ErrorKind::Interrupted, "interrupted"));
        }
        if self.is_broken {
            self.is_broken = false;
            return Err(io::Error::new(ErrorKind::Other, "out of order"));
        }
        Ok(())
    }
}

impl<R: Read> Read for Faulty<R> {
    fn read(&mut self, buf: &mut [u8]) -> io::Result<usize> {
        self.stop()?;
        self.inner.read(buf)
    }
}

impl<W: Write> Write for Faulty<W> {
    fn write(&mut self, buf: &[u8]) -> io::Result<usize> {
        self.stop()?;
        self.inner.write(buf)
    }

    fn flush(&mut self) -> io::Result<()> {
        self.inner.flush()
    }
}

/// How the outside stands, and what comes of the first call: whether it succeeds, and how often the outside is called.
#[derive(Clone, Copy)]
struct Case {
    interrupted: u32,
    is_broken: bool,
    succeeds: bool,
    calls: u32,
}

fn when(interrupted: u32, is_broken: bool, succeeds: bool, calls: u32) -> Case {
    Case {
        interrupted,
        is_broken,
        succeeds,
        calls,
    }
}

/// Something interrupted and broken as the case says.
fn over<T>(inner: T, case: Case) -> Faulty<T> {
    Faulty {
        inner,
        interrupted: case.interrupted,
        is_broken: case.is_broken,
        calls: 0,
    }
}

/// Whether a read of two bytes gives these.
fn gives<S: Source>(source: &mut S, bytes: &[u8]) -> bool {
    let mut into = [0u8; 2];
    match source.read(&mut into) {
        Ok(taken) => &into[..taken] == bytes,
        Err(Failed) => false,
    }
}

/// Whether a read fails.
fn fails<S: Source>(source: &mut S) -> bool {
    source.read(&mut [0u8; 2]) == Err(Failed)
}

/// Whether a write takes so many bytes, or fails where none are said.
fn takes<K: Sink>(sink: &mut K, bytes: &[u8], count: Option<usize>) -> bool {
    match sink.write(bytes) {
        Ok(taken) => count == Some(taken),
        Err(error) => error == SinkError::Failed && count.is_none(),
    }
}

fn seq<T: Copy>(alloc: Global, rt: &impl Abort, items: &[T]) -> Seq<T> {
    Seq::of(Vec::from_slice(alloc, items).expect(rt, "memory"))
}

/// A source of four bytes that gives them one by one. The read of that number fails.
fn abcd(alloc: Global, rt: &impl Abort, failing: u64) -> MemorySource {
    let fails = seq(alloc, rt, &[failing]);
    MemorySource::new(seq(alloc, rt, b"abcd"), 1, fails)
}

/// Whether the first bytes come one by one, with a fault between them.
fn gives_with_a_fault<S: Source>(source: &mut S) -> bool {
    gives(source, b"a") && fails(source) && gives(source, b"b")
}

#[test]
fn a_memory_source_gives_pieces_and_fails_where_chosen(rt: HostRuntime) {
    let mut source = abcd(rt.alloc(), &rt, 2);
    assert!(rt; gives_with_a_fault(&mut source));
    assert_eq!(rt; source.left(), b"cd".as_slice());
    assert_eq!(rt; source.faults(), 1);
}

/// Whether every other write fails, and those between take a byte.
fn takes_with_faults<K: Sink>(sink: &mut K) -> bool {
    takes(sink, b"abc", Some(1))
        && takes(sink, b"bc", None)
        && takes(sink, b"bc", Some(1))
        && takes(sink, b"c", None)
        && takes(sink, b"", Some(0))
}

#[test]
fn a_memory_sink_takes_pieces_and_fails_where_chosen(rt: HostRuntime) {
    let fails = seq(rt.alloc(), &rt, &[2, 4]);
    let mut sink = MemorySink::new(rt.alloc(), 1, fails);
    assert!(rt; takes_with_faults(&mut sink));
    assert_eq!(rt; sink.written(), b"ab".as_slice());
    assert_eq!(rt; sink.faults(), 2);
}

/// Whether the first read of a reader is as the case says.
fn reads_as(case: Case) -> bool {
    let mut source = ReaderSource::new(over(b"abc".as_slice(), case));
    let is_right = if case.succeeds {
        gives(&mut source, b"ab")
    } else {
        fails(&mut source)
    };
    is_right
        && source.faults() == u64::from(!case.succeeds)
        && source.into_inner().calls == case.calls
}

/// Whether the first write to a writer is as the case says.
fn writes_as(alloc: Global, case: Case) -> bool {
    let count = if case.succeeds { Some(2) } else { None };
    let mut sink = WriterSink::new(over(Vec::new(alloc), case));
    let is_right = takes(&mut sink, b"ab", count);
    let faults = sink.faults();
    let writer = sink.into_inner();
    is_right
        && faults == u64::from(!case.succeeds)
        && writer.calls == case.calls
        && writer.inner.len() == count.unwrap_or(0)
}

#[test]
fn adapters_fail_where_std_fails_and_try_an_interrupted_call_a_hundred_times(rt: HostRuntime) {
    for case in [
        when(0, false, true, 1),
        when(0, true, false, 1),
        when(1, false, true, 2),
        when(1, true, false, 2),
        when(99, false, true, 100),
        when(100, false, false, 100),
        when(u32::MAX, false, false, 100),
    ] {
        let times = case.interrupted;
        assert!(rt; reads_as(case), "a read, interrupted {times} times");
        assert!(rt;
            writes_as(rt.alloc(), case),
            "a write, interrupted {times} times"
        );
    }
}

/// Whether a source fails once, and then gives three bytes to their end.
fn goes_on<S: Source>(source: &mut S) -> bool {
    fails(source) && gives(source, b"ab") && gives(source, b"c") && gives(source, b"")
}

/// Whether a sink fails once, then takes three bytes, and then no more.
fn takes_three<K: Sink>(sink: &mut K) -> bool {
    takes(sink, b"abcd", None)
        && takes(sink, b"abcd", Some(3))
        && takes(sink, b"", Some(0))
        && takes(sink, b"d", None)
}

#[test]
fn adapters_go_on_after_a_failure(rt: HostRuntime) {
    let broken = when(0, true, false, 1);
    let mut source = ReaderSource::new(over(b"abc".as_slice(), broken));
    assert!(rt; goes_on(&mut source));
    let mut room = [0u8; 3];
    let mut sink = WriterSink::new(over(room.as_mut_slice(), broken));
    assert!(rt; takes_three(&mut sink));
    assert_eq!(rt; sink.faults(), 2);
}

/// A source in memory tells its bytes, and counts its faults.
fn read_memory(alloc: Global, source: &mut MemorySource, limit: usize) -> Result<Intake, ReadError>
    requires { limit < 2 ^ 64 - 1 }
    ensures intake { IfOk result (λ intake. intake ≡ intake_of limit source.old.left) }
    ensures cause { CountsWhere (read_failed result) source.old.faults source.new.faults }
{
    read_all(alloc, source, limit)
}

/// A source over a reader tells what the reader tells.
fn read_reader<R: Read>(alloc: Global, source: &mut ReaderSource<R>) -> Result<Intake, ReadError>
    ensures intake { IfOk result (λ intake. IfSome (R.remaining source.old.reader) (λ bytes. intake ≡ intake_of 9 bytes)) }
    ensures cause { CountsWhere (read_failed result) source.old.faults source.new.faults }
{
    read_all(alloc, source, 9)
}

/// A sink in memory tells its contents, and counts its faults.
fn write_memory(sink: &mut MemorySink, bytes: &[u8]) -> Result<(), SinkError>
    ensures written { OnOk result (sink.new.written ≡ sink.old.written ++ bytes.now) }
    ensures cause { CountsWhere (sink_failed result) sink.old.faults sink.new.faults }
{
    write_all(sink, bytes)
}

/// A sink over a writer tells what the writer tells.
fn write_writer<W: Write>(sink: &mut WriterSink<W>, bytes: &[u8]) -> Result<(), SinkError>
    ensures written { OnOk result (IfSome (W.contents sink.old.writer) (λ old. W.contents sink.new.writer ≡ Some (old ++ bytes.now))) }
    ensures cause { CountsWhere (sink_failed result) sink.old.faults sink.new.faults }
{
    write_all(sink, bytes)
}

#[test]
fn a_transfer_moves_all_bytes(rt: HostRuntime) {
    let mut source = ReaderSource::new(b"abcd".as_slice());
    let mut sink = WriterSink::new(Vec::new(rt.alloc()));
    if let Ok(Intake::All(bytes)) = read_reader(rt.alloc(), &mut source) {
        assert_eq!(rt; write_writer(&mut sink, bytes.as_slice()), Ok(()));
    }
    assert_eq!(rt; sink.into_inner().as_slice(), b"abcd".as_slice());
}

/// Reads four bytes one by one within a limit, and checks what comes of it, and which bytes are left.
fn check_reading(alloc: Global, rt: &impl Abort, failing: u64, limit: u8, want: &str) {
    let mut source = abcd(alloc, rt, failing);
    let answer = read_memory(alloc, &mut source, limit.into());
    let left = source.left();
    let printed = format!(in alloc; "{answer:?} {left:?}").expect(rt, "memory");
    assert_eq!(rt; printed.as_str(), want);
}

#[test]
fn reading_ends_at_the_end_or_one_byte_past_the_limit(rt: HostRuntime) {
    check_reading(rt.alloc(), &rt, 0, 9, "Ok(All([97, 98, 99, 100])) []");
    check_reading(rt.alloc(), &rt, 0, 4, "Ok(All([97, 98, 99, 100])) []");
    check_reading(rt.alloc(), &rt, 0, 3, "Ok(TooLarge) []");
    check_reading(rt.alloc(), &rt, 0, 1, "Ok(TooLarge) [99, 100]");
    check_reading(rt.alloc(), &rt, 0, 0, "Ok(TooLarge) [98, 99, 100]");
}

#[test]
fn reading_ends_at_the_first_failed_read(rt: HostRuntime) {
    check_reading(rt.alloc(), &rt, 3, 9, "Err(Failed) [99, 100]");
}

#[test]
fn a_sink_takes_ten_bytes_and_fails(rt: HostRuntime) {
    let fails = seq(rt.alloc(), &rt, &[2]);
    let mut sink = MemorySink::new(rt.alloc(), 10, fails);
    let failed = write_memory(&mut sink, b"0 publish ab");
    assert_eq!(rt; failed, Err(SinkError::Failed));
    assert_eq!(rt; sink.written(), b"0 publish ".as_slice());
    assert_eq!(rt; write_memory(&mut sink, b"cd"), Ok(()));
    assert_eq!(rt; sink.written(), b"0 publish cd".as_slice());
}

#[test]
fn errors_have_their_texts(rt: HostRuntime) {
    let [read, memory] = [ReadError::Failed, ReadError::Memory];
    let [sink, wanting] = [SinkError::Failed, SinkError::Memory];
    let text = format!(in rt.alloc(); "{read} {memory} {sink} {wanting}").expect(&rt, "memory");
    assert_eq!(rt; text.as_str(), "failed memory failed memory");
}
