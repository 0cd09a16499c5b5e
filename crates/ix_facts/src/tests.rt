//! Worked runs as calls of a library, over directories in memory whose numbered calls fail or are answered wrongly.
ghost use Rattle.std.specs.Prelude.{◌≡◌, ◌<◌, length, take, true};
ghost use Rattle.std.specs.List.{AllByRecursion};
ghost use Rattle.ix_types.specs.Name.{sha_name};
ghost use Rattle.ix_guard.specs.Guarding.{lease_of};
ghost use Rattle.ix_guard.specs.Protection.{was_put};
ghost use Rattle.ix_record.specs.Whole.{IsWhole};
ghost use Rattle.ix_unit.specs.Value.{IsValidUnit};
ghost use Rattle.ix_library.specs.Conditions.{has_put_each};
ghost use Rattle.ix_library.specs.StandsFor.{HasSlots};

use ix_dir::{Dir, MemoryDir, Pick, Reads, ReadsFrom, UntoldDir};
use ix_library::{Library, Started, check_store, laws, open_store};
use ix_machine::{Outcome, Purpose};
use ix_record::Body;
use ix_turns as calls;
use ix_types::{FileName, Naming, Seq, Sha, Text};
use ix_unit::{RecordDep, UnitValue};
use ix_wire::{put_text, put_u32};
use std::alloc::Global;
use std::process::Abort;
use std::sync::Arc;

/// A record's file up to its line, and behind it.
const FRONT: &str = "495852310000000100000006000000640000000000000005733a314d41000000014100000001";

const BACK: &str = "00000008000000000000000200000000";

/// Names bytes by the first two digits of their SHA-256, so that names are soon alike.
#[derive(Clone, Copy, Debug)]
struct Short;

impl Naming for Short {
    ghost name_of = { λ bytes. take 2 (sha_name bytes) };

    fn name(&self, bytes: &[u8]) -> FileName {
        two_digits(Sha.name(bytes))
    }
}

fn two_digits(name: FileName) -> FileName
    ensures { result ≡ take 2 name }
{
    match name.bytes() {
        [first, second, ..] => match FileName::read(&[*first, *second]) {
            Some(short) => short,
            None => unreachable!(),
        },
        _ => name,
    }
}

/// Runs over a directory that doesn't tell its moves. A run begins with the numbers of the calls that fail, how reads are answered and from which read on, and what it
/// shows. Then a line for each call: lane, call, what it is given, and how it ends. `1` is the record of an occurrence in line 1, `abc/1` a unit of the output path
/// `abc` that lists it.
const RUNS: &str = "\
over - whole/1 a leased record is spared
0 lease 1 done
0 put 1 written
1 collect - nothing
0 stage abc/1 done
0 publish - synced
over - whole/1 what a lane holds is spared until it lets go
0 lease 1 done
0 put 1 written
0 stage abc/1 done
0 publish - synced
0 scan - at/1
0 load 1 done
0 install - at/1
1 adopt - at/1
0 lease 2 done
0 put 2 written
0 stage abc/2 done
0 publish - synced
0 scan - at/2
0 load 2 done
0 install - at/2
0 collect - nothing
0 collect - nothing
1 ask 1 done
1 release - done
0 collect - removed/1
over - whole/1 the open import is spared
0 lease 1 done
0 put 1 written
0 stage abc/1 done
0 publish - synced
0 scan - at/1
1 lease 2 done
1 put 2 written
1 stage abc/2 done
1 publish - synced
1 collect - nothing
0 load 1 done
0 install - at/1
over 10 whole/1 a change whose sync failed is synced by the next publish
0 lease 1 done
0 put 1 written
0 stage abc/1 done
0 publish - unsynced
0 lease 1 done
0 put 1 shared
0 stage abd/1 done
0 publish - synced
over 17,18 whole/1 a collect spares the units from before a change that pends
0 lease 1 done
0 put 1 written
0 stage abc/1 done
0 publish - synced
0 lease 2 done
0 put 2 written
0 stage abc/2 done
0 publish - unsynced
0 collect - fault
0 collect - removed/1
over - whole/1 nothing is loose before a build and behind it
0 collect - nothing
0 lease 1 done
0 put 1 written
0 stage abc/1 done
0 publish - synced
0 collect - nothing
over - whole/1 a removal finds the unit once
0 remove abc no_unit
0 lease 1 done
0 put 1 written
0 stage abc/1 done
0 publish - synced
0 remove abc synced
0 remove abc no_unit
over - nothing/4 a record that vanishes is lost
0 lease 1 done
0 put 1 written
0 stage abc/1 done
0 publish - synced
0 scan - at/1
0 load 1 done
0 install - at/1
0 ask 1 lost/1
over - less/4 a record that is cut is damaged
0 lease 1 done
0 put 1 written
0 stage abc/1 done
0 publish - synced
0 scan - at/1
0 load 1 done
0 install - at/1
0 ask 1 damaged/1
over - nothing/2 a unit file that vanishes is lost
0 lease 1 done
0 put 1 written
0 stage abc/1 done
0 publish - synced
0 scan - lost/abc
0 install - no_call
over - less/2 a unit file that is cut is damaged
0 lease 1 done
0 put 1 written
0 stage abc/1 done
0 publish - synced
0 scan - damaged/abc
0 install - no_call
over 13 whole/1 a load that fails closes the import
0 lease 1 done
0 put 1 written
0 stage abc/1 done
0 publish - synced
0 scan - at/1
0 load 1 fault
0 install - no_call
0 scan - at/1
0 load 1 done
0 install - at/1";

/// Under short names the records 2 and 12 have one name, and so have the output paths `o27` and `o37`.
const CLASHES: &str = "\
over - whole/1 other bytes under a name that is needed
0 lease 2 done
0 put 2 written
0 stage abc/2 done
0 publish - synced
1 lease 12 done
1 put 12 clash
0 remove abc synced
1 lease 12 done
1 put 12 written
over - whole/1 another output path of the name
0 lease - done
0 stage o27/ done
0 publish - synced
1 lease - done
1 stage o37/ done
1 publish - clash
1 remove o37 no_unit
0 remove o27 synced
1 remove o37 no_unit";

// ---- values

/// The record file of an occurrence in this line.
fn record_file(alloc: Global, rt: &impl Abort, line: u32) -> Vec<u8> {
    let mut bytes = hex::decode(alloc, FRONT.as_bytes()).expect(rt, "digits");
    put_u32(&mut bytes, line).expect(rt, "memory");
    let back = hex::decode(alloc, BACK.as_bytes()).expect(rt, "digits");
    bytes
        .extend_from_slice(back.as_slice())
        .expect(rt, "memory");
    bytes
}

fn line_of(rt: &impl Abort, word: &str) -> u32 {
    word.parse().expect(rt, "a line")
}

/// The record of a line under its name.
fn body<N: Naming>(alloc: Global, rt: &impl Abort, naming: &N, line: u32) -> Body
    ensures { IsWhole N.name_of result }
{
    let bytes = record_file(alloc, rt, line);
    let name = naming.name(bytes.as_slice());
    let _value = ix_record::decode(alloc, bytes.as_slice()).expect(rt, "a record");
    Body {
        name,
        bytes: Seq::of(bytes),
    }
}

/// The name of a record by its line, or else of a unit by its output path.
fn name_of<N: Naming>(alloc: Global, rt: &impl Abort, naming: &N, word: &str) -> FileName {
    match word.parse::<u32>() {
        Ok(line) => naming.name(record_file(alloc, rt, line).as_slice()),
        Err(_) => naming.name(word.as_bytes()),
    }
}

fn put_word(alloc: Global, rt: &impl Abort, out: &mut Vec<u8>, bytes: &[u8]) {
    let text = Text::read(alloc, bytes).expect(rt, "a text");
    put_text(out, &text).expect(rt, "memory");
}

/// The fields of a unit's file, without its digest: output path, main file and module, and its records, each under a path of its own.
fn unit_fields<N: Naming>(
    alloc: Global,
    rt: &impl Abort,
    naming: &N,
    output: &str,
    lines: &str,
) -> Vec<u8> {
    let mut out = Vec::from_slice(alloc, b"IXU1").expect(rt, "memory");
    put_word(alloc, rt, &mut out, output.as_bytes());
    put_word(alloc, rt, &mut out, b"a.swift");
    put_word(alloc, rt, &mut out, b"M");
    put_u32(&mut out, 0).expect(rt, "memory");
    let count = (lines.split(',').filter(|line| !line.is_empty()).count() & 7) as u32;
    put_u32(&mut out, count).expect(rt, "memory");
    for (line, path) in lines.split(',').zip(["a.swift", "b.swift"]) {
        if !line.is_empty() {
            put_u32(&mut out, 2).expect(rt, "memory");
            put_word(alloc, rt, &mut out, path.as_bytes());
            put_u32(&mut out, 0).expect(rt, "memory");
            put_word(
                alloc,
                rt,
                &mut out,
                name_of(alloc, rt, naming, line).bytes(),
            );
        }
    }
    put_u32(&mut out, 0).expect(rt, "memory");
    out
}

/// The unit of an output path and of records, as `abc/1,2`.
fn unit<N: Naming>(alloc: Global, rt: &impl Abort, naming: &N, words: &str) -> Arc<UnitValue>
    ensures { IsValidUnit result.value }
{
    let (output, lines) = words.split_once('/').expect(rt, "a unit");
    let mut bytes = unit_fields(alloc, rt, naming, output, lines);
    let digest = Sha.name(bytes.as_slice());
    let digest = hex::decode(alloc, digest.bytes()).expect(rt, "digits");
    bytes
        .extend_from_slice(digest.as_slice())
        .expect(rt, "memory");
    let unit = ix_unit::decode(alloc, bytes.as_slice()).expect(rt, "a unit");
    Arc::new(alloc, unit).expect(rt, "memory")
}

// ---- calls, where the library is as they want it

/// The names of records by their lines, as `1,2`; `-` is none.
fn names<N: Naming>(alloc: Global, rt: &impl Abort, naming: &N, lines: &str) -> Seq<FileName> {
    let mut names = Vec::new(alloc);
    for line in lines.split(',').filter(|line| *line != "-") {
        names
            .push(name_of(alloc, rt, naming, line))
            .expect(rt, "memory");
    }
    Seq::of(names)
}

/// Leases records for the lane.
fn lease<D: Dir, N: Naming>(
    alloc: Global,
    rt: &impl Abort,
    library: &mut Library<D, N>,
    naming: &N,
    lane: u32,
    given: &str,
) -> Option<Outcome>
    ensures { HasSlots library.old.ledger.kept (D.state library.old.dir) → HasSlots library.new.ledger.kept (D.state library.new.dir) }
{
    if !library.has_lane(lane) {
        return None;
    }
    if library.has_lease(lane) {
        return None;
    }
    let names = names(alloc, rt, naming, given);
    calls::lease(alloc, library, lane, &names).ok()
}

/// Puts the record of a line.
fn put<D: Dir, N: Naming>(
    alloc: Global,
    rt: &impl Abort,
    library: &mut Library<D, N>,
    naming: &N,
    lane: u32,
    given: &str,
) -> Option<Outcome>
    ensures { HasSlots library.old.ledger.kept (D.state library.old.dir) → HasSlots library.new.ledger.kept (D.state library.new.dir) }
{
    let body = body(alloc, rt, naming, line_of(rt, given));
    if !library.has_lane(lane) {
        return None;
    }
    if library.staged(lane).is_some() {
        return None;
    }
    if !library.has_leased(lane, body.name) {
        return None;
    }
    calls::put(alloc, library, lane, &body).ok()
}

/// Whether each of the records, one at most, was put under the lane's lease.
fn has_put_all<D: Dir, N: Naming>(library: &Library<D, N>, lane: u32, records: &[RecordDep]) -> bool
    requires { lane < length library.now.ledger.kept.guard.leases }
    ensures { result ≡ true → AllByRecursion (λ dep. was_put library.now.ledger.kept.guard lane dep.name ≡ true) records.now }
{
    match records {
        [] => true,
        [dep] => library.has_put(lane, dep.name),
        _ => false,
    }
}

/// Whether the unit may be staged by the lane, which has staged nothing.
fn may_stage<D: Dir, N: Naming>(library: &Library<D, N>, lane: u32, unit: &UnitValue) -> bool
    requires { lane < length library.now.ledger.kept.guard.leases }
    ensures { result ≡ true → has_put_each unit.now.records (lease_of library.now.ledger.kept.guard lane) ≡ true }
{
    laws::puts_are_noted();
    if !library.has_lease(lane) {
        return false;
    }
    has_put_all(library, lane, unit.records.as_slice())
}

/// Stages a unit.
fn stage<D: Dir, N: Naming>(
    alloc: Global,
    rt: &impl Abort,
    library: &mut Library<D, N>,
    naming: &N,
    lane: u32,
    given: &str,
) -> Option<Outcome>
    ensures { HasSlots library.old.ledger.kept (D.state library.old.dir) → HasSlots library.new.ledger.kept (D.state library.new.dir) }
{
    let unit = unit(alloc, rt, naming, given);
    if !library.has_lane(lane) {
        return None;
    }
    if library.staged(lane).is_some() {
        return None;
    }
    if !may_stage(library, lane, &unit) {
        return None;
    }
    calls::stage(alloc, library, lane, unit).ok()
}

/// Publishes what the lane has staged.
fn publish<D: Dir, N: Naming>(
    alloc: Global,
    library: &mut Library<D, N>,
    lane: u32,
) -> Option<Outcome>
    requires { HasSlots library.old.ledger.kept (D.state library.old.dir) }
    ensures { HasSlots library.new.ledger.kept (D.state library.new.dir) }
{
    if !library.has_lane(lane) {
        return None;
    }
    if library.staged(lane).is_none() {
        return None;
    }
    calls::publish(alloc, library, lane).ok()
}

/// The calls of a lane that are given nothing.
fn other<D: Dir, N: Naming>(
    alloc: Global,
    library: &mut Library<D, N>,
    lane: u32,
    call: &str,
) -> Option<Outcome>
    requires { HasSlots library.old.ledger.kept (D.state library.old.dir) }
    ensures { HasSlots library.new.ledger.kept (D.state library.new.dir) }
{
    if !library.has_lane(lane) {
        return None;
    }
    match call {
        "adopt" => calls::adopt(library, lane).ok(),
        "release" => calls::release(library, lane).ok(),
        "collect" => calls::collect(alloc, library, lane).ok(),
        "publish" => publish(alloc, library, lane),
        _ => install(library, lane),
    }
}

/// Makes the lane's import the current version.
fn install<D: Dir, N: Naming>(library: &mut Library<D, N>, lane: u32) -> Option<Outcome>
    ensures { HasSlots library.old.ledger.kept (D.state library.old.dir) → HasSlots library.new.ledger.kept (D.state library.new.dir) }
{
    if !library.has_lane(lane) {
        return None;
    }
    if !library.has_import(lane) {
        return None;
    }
    calls::install(library, lane).ok()
}

/// Removes the unit of an output path.
fn remove<D: Dir, N: Naming>(
    alloc: Global,
    rt: &impl Abort,
    library: &mut Library<D, N>,
    lane: u32,
    given: &str,
) -> Option<Outcome>
    ensures { HasSlots library.old.ledger.kept (D.state library.old.dir) → HasSlots library.new.ledger.kept (D.state library.new.dir) }
{
    let output = Text::read(alloc, given.as_bytes()).expect(rt, "a path");
    calls::remove(alloc, library, lane, &output).ok()
}

/// The calls that ask nothing of what the directory holds.
fn make<D: Dir, N: Naming>(
    alloc: Global,
    rt: &impl Abort,
    library: &mut Library<D, N>,
    naming: &N,
    lane: u32,
    call: &str,
    given: &str,
) -> Option<Outcome>
    requires { HasSlots library.old.ledger.kept (D.state library.old.dir) }
    ensures { HasSlots library.new.ledger.kept (D.state library.new.dir) }
{
    match call {
        "lease" => lease(alloc, rt, library, naming, lane, given),
        "put" => put(alloc, rt, library, naming, lane, given),
        "stage" => stage(alloc, rt, library, naming, lane, given),
        "remove" => remove(alloc, rt, library, lane, given),
        other_call => other(alloc, library, lane, other_call),
    }
}

/// A load of the record of a line.
fn load<N: Naming>(
    alloc: Global,
    rt: &impl Abort,
    library: &mut Library<UntoldDir, N>,
    naming: &N,
    lane: u32,
    given: &str,
    purpose: Purpose,
) -> Option<Outcome>
    ensures { HasSlots library.old.ledger.kept (⟦<UntoldDir as Dir>⟧.state library.old.dir) → HasSlots library.new.ledger.kept (⟦<UntoldDir as Dir>⟧.state library.new.dir) }
{
    let name = name_of(alloc, rt, naming, given);
    match calls::load(alloc, library, lane, name, purpose) {
        Ok(loaded) => Some(loaded.outcome),
        Err(_wanting) => None,
    }
}

/// A scan of the lane.
fn scan<N: Naming>(alloc: Global, library: &mut Library<UntoldDir, N>, lane: u32) -> Option<Outcome>
    ensures { HasSlots library.old.ledger.kept (⟦<UntoldDir as Dir>⟧.state library.old.dir) → HasSlots library.new.ledger.kept (⟦<UntoldDir as Dir>⟧.state library.new.dir) }
{
    match calls::scan(alloc, library, lane) {
        Ok(scanned) => Some(scanned.outcome),
        Err(_wanting) => None,
    }
}

/// How a call of a lane ended. None where the library isn't as the call wants it.
fn step<N: Naming>(
    alloc: Global,
    rt: &impl Abort,
    library: &mut Library<UntoldDir, N>,
    naming: &N,
    lane: u32,
    call: &str,
    given: &str,
) -> Option<Outcome>
    requires { HasSlots library.old.ledger.kept (⟦<UntoldDir as Dir>⟧.state library.old.dir) }
    ensures { HasSlots library.new.ledger.kept (⟦<UntoldDir as Dir>⟧.state library.new.dir) }
{
    match call {
        "scan" => scan(alloc, library, lane),
        "load" => load(alloc, rt, library, naming, lane, given, Purpose::Import),
        "ask" => load(alloc, rt, library, naming, lane, given, Purpose::Ask),
        other_call => make(alloc, rt, library, naming, lane, other_call, given),
    }
}

// ---- runs

/// An outcome that shows a mark or a name, as `at/1`, `removed/1` or `lost/abc`.
fn shown<N: Naming>(alloc: Global, rt: &impl Abort, naming: &N, word: &str) -> Option<Outcome> {
    let (word, given) = word.split_once('/')?;
    match word {
        "at" => Some(Outcome::At {
            mark: given.parse().expect(rt, "a mark"),
        }),
        "removed" => Some(Outcome::Removed {
            name: name_of(alloc, rt, naming, given),
        }),
        "lost" => Some(Outcome::Lost {
            name: name_of(alloc, rt, naming, given),
        }),
        _ => Some(Outcome::Damaged {
            name: name_of(alloc, rt, naming, given),
        }),
    }
}

/// The outcome that a word names; none where the call can't be made.
fn outcome_of<N: Naming>(
    alloc: Global,
    rt: &impl Abort,
    naming: &N,
    word: &str,
) -> Option<Outcome> {
    match word {
        "done" => Some(Outcome::Done),
        "written" => Some(Outcome::Written),
        "shared" => Some(Outcome::Shared),
        "clash" => Some(Outcome::Clash),
        "synced" => Some(Outcome::Synced),
        "unsynced" => Some(Outcome::Unsynced),
        "no_unit" => Some(Outcome::NoUnit),
        "nothing" => Some(Outcome::Nothing),
        "fault" => Some(Outcome::Fault),
        other => shown(alloc, rt, naming, other),
    }
}

/// Makes the call of a line. It ends as the line says, and so does the event that it leaves.
fn check_line<N: Naming>(
    alloc: Global,
    rt: &impl Abort,
    library: &mut Library<UntoldDir, N>,
    naming: &N,
    line: &str,
)
    requires { HasSlots library.old.ledger.kept (⟦<UntoldDir as Dir>⟧.state library.old.dir) }
    ensures { HasSlots library.new.ledger.kept (⟦<UntoldDir as Dir>⟧.state library.new.dir) }
{
    let (lane, rest) = line.split_once(' ').expect(rt, "a lane");
    let (call, rest) = rest.split_once(' ').expect(rt, "a call");
    let (given, ends) = rest.split_once(' ').expect(rt, "an outcome");
    let before = library.events().len();
    let how = step(alloc, rt, library, naming, line_of(rt, lane), call, given);
    assert!(rt; how == outcome_of(alloc, rt, naming, ends), "{line}");
    let after = library.events().len();
    assert!(rt; after == before + how.is_some() as usize, "{line}");
}

/// The numbers of the calls that fail, as `17,18`; `-` is none.
fn numbers(alloc: Global, rt: &impl Abort, words: &str) -> Seq<u64> {
    let mut numbers = Vec::new(alloc);
    for word in words.split(',').filter(|word| *word != "-") {
        numbers
            .push(word.parse().expect(rt, "a number"))
            .expect(rt, "memory");
    }
    Seq::of(numbers)
}

/// A directory that doesn't tell its moves, whose calls of these numbers fail, and which answers reads in this way from a read on, as `nothing/4`.
fn directory(alloc: Global, rt: &impl Abort, fails: &str, reads: &str) -> UntoldDir {
    let inner = MemoryDir::failing(alloc, numbers(alloc, rt, fails));
    let (word, read) = reads.split_once('/').expect(rt, "reads");
    let reads = match word {
        "nothing" => Reads::Nothing,
        "less" => Reads::ByteLess,
        _ => Reads::Whole,
    };
    let mut changes = Vec::new(alloc);
    changes
        .push(ReadsFrom {
            read: read.parse().expect(rt, "a number"),
            reads,
        })
        .expect(rt, "memory");
    let mut dir = UntoldDir::new(inner, Reads::Whole);
    dir.set_changes(Seq::of(changes));
    dir
}

/// A store over the directory with two lanes.
fn opened<D: Dir, N: Naming + Drop>(
    alloc: Global,
    rt: &impl Abort,
    dir: D,
    naming: N,
) -> Library<D, N>
    ensures { HasSlots result.ledger.kept (D.state result.dir) }
{
    match open_store(alloc, dir, naming, 2) {
        Ok(
            Started {
                library,
                refused: _,
            },
        ) => library,
        Err(_) => panic!(rt; "a store"),
    }
}

/// Makes the calls of a run's lines, one after the other.
fn check_lines<N: Naming>(
    alloc: Global,
    rt: &impl Abort,
    library: &mut Library<UntoldDir, N>,
    naming: &N,
    lines: &str,
)
    requires { HasSlots library.old.ledger.kept (⟦<UntoldDir as Dir>⟧.state library.old.dir) }
    ensures { HasSlots library.new.ledger.kept (⟦<UntoldDir as Dir>⟧.state library.new.dir) }
{
    for line in lines.lines() {
        check_line(alloc, rt, library, naming, line);
    }
}

fn check_run<N: Naming + Copy + Drop>(alloc: Global, rt: &impl Abort, naming: N, run: &str) {
    let (head, lines) = run.split_once('\n').expect(rt, "a run");
    let (fails, rest) = head.split_once(' ').expect(rt, "numbers");
    let (reads, _shows) = rest.split_once(' ').expect(rt, "reads");
    let mut library = opened(alloc, rt, directory(alloc, rt, fails, reads), naming);
    check_lines(alloc, rt, &mut library, &naming, lines);
    let _dir = library.into_dir();
}

#[test]
fn calls_end_as_worked(rt: HostRuntime) {
    let alloc = rt.alloc();
    for run in RUNS.split("over ").skip(1) {
        check_run(alloc, &rt, Sha, run);
    }
}

#[test]
fn names_that_are_alike_clash(rt: HostRuntime) {
    let alloc = rt.alloc();
    for run in CLASHES.split("over ").skip(1) {
        check_run(alloc, &rt, Short, run);
    }
}

// ---- what is left

/// Whether a build of the first lane ended so.
fn build<D: Dir>(
    alloc: Global,
    rt: &impl Abort,
    library: &mut Library<D, Sha>,
    unit: &str,
    ends: Outcome,
) -> bool
    requires { HasSlots library.old.ledger.kept (D.state library.old.dir) }
    ensures { HasSlots library.new.ledger.kept (D.state library.new.dir) }
{
    let _leased = make(alloc, rt, library, &Sha, 0, "lease", "1");
    let _put = make(alloc, rt, library, &Sha, 0, "put", "1");
    let _staged = make(alloc, rt, library, &Sha, 0, "stage", unit);
    publish(alloc, library, 0) == Some(ends)
}

/// How many units an opening finds after a stop, where it refuses none.
fn units_left(alloc: Global, rt: &impl Abort, dir: &MemoryDir, pick: Pick) -> usize {
    let mut image = dir.stopped(alloc, pick).expect(rt, "memory");
    let found = check_store(alloc, &mut image, &Sha).expect(rt, "a look");
    assert!(rt; found.refused.as_slice().is_empty());
    found.units.as_slice().len()
}

/// A directory whose calls of these numbers fail.
fn failing(alloc: Global, rt: &impl Abort, first: u64, last: u64) -> MemoryDir {
    let mut fails = Vec::new(alloc);
    for number in first..=last {
        fails.push(number).expect(rt, "memory");
    }
    MemoryDir::failing(alloc, Seq::of(fails))
}

/// The publish's last sync is call 10. A stop behind it leaves no unit, or the one.
#[test]
fn a_stop_behind_a_failed_sync_leaves_the_unit_or_none(rt: HostRuntime) {
    let alloc = rt.alloc();
    let mut library = opened(alloc, &rt, failing(alloc, &rt, 10, 210), Sha);
    assert!(rt; build(alloc, &rt, &mut library, "abc/1", Outcome::Unsynced));
    let dir = library.into_dir();
    assert!(rt; units_left(alloc, &rt, &dir, Pick::Oldest) == 0);
    assert!(rt; units_left(alloc, &rt, &dir, Pick::Newest) == 1);
}

#[test]
fn a_check_finds_what_was_published(rt: HostRuntime) {
    let alloc = rt.alloc();
    let mut library = opened(alloc, &rt, MemoryDir::new(alloc), Sha);
    assert!(rt; build(alloc, &rt, &mut library, "abc/1", Outcome::Synced));
    let mut dir = library.into_dir();
    let found = check_store(alloc, &mut dir, &Sha).expect(&rt, "a look");
    assert!(rt; found.refused.as_slice().is_empty());
    assert!(rt; found.units.as_slice().len() == 1);
    for put in found.units.as_slice() {
        assert!(rt; put.name == Sha.name(b"abc"));
    }
}

/// Two builds end with call 14. A second opening makes two syncs, a list, and reads of two units and of the record that both list: the last is call 20.
#[test]
fn a_record_of_two_units_is_read_once(rt: HostRuntime) {
    let alloc = rt.alloc();
    for number in 20..=21u64 {
        let mut library = opened(alloc, &rt, failing(alloc, &rt, number, number), Sha);
        assert!(rt; build(alloc, &rt, &mut library, "abc/1", Outcome::Synced));
        assert!(rt; build(alloc, &rt, &mut library, "abd/1", Outcome::Synced));
        let mut dir = library.into_dir();
        assert!(rt; ix_opening::open(alloc, &mut dir, &Sha).is_err() == (number == 20));
    }
}
