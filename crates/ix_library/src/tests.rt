//! The steps as calls of a library, over a directory in memory whose numbered calls fail.
ghost use Rattle.std.specs.Prelude.{◌≡◌, ◌<◌, ℕ, List, Bool, true, None, length, IsSome};
ghost use Rattle.std.specs.List.{AllByRecursion};
ghost use Rattle.ix_machine.specs.Needs.{option_any};
ghost use Rattle.ix_guard.specs.Guarding.{lease_of};
ghost use Rattle.ix_guard.specs.Protection.{leases_name, was_put};
ghost use Rattle.ix_ledger.specs.Kept.{staged_in};
ghost use Rattle.ix_record.specs.Whole.{IsWhole};
ghost use Rattle.ix_unit.specs.Value.{IsValidUnit};
ghost use Rattle.ix_library.specs.Conditions.{has_put_each};
ghost use Rattle.ix_library.specs.StandsFor.{HasSlots};

use super::*;
use ix_cabinet::Settled;
use ix_dir::{Dir, MemoryDir, Pick};
use ix_record::Body;
use ix_types::{FileName, Naming, Seq, Sha, Text};
use ix_unit::UnitValue;
use std::alloc::Global;
use std::process::Abort;
use std::sync::Arc;

/// A record, and another one of the same symbol.
const FIRST: &str =
    "495852310000000100000006000000640000000000000005733a314d410000000141000000010000000100000008000000000000000200000000";

const SECOND: &str =
    "495852310000000100000006000000640000000000000005733a314d410000000141000000010000000200000008000000000000000200000000";

/// Units of output `abc` with the one record and with the other, and of output `abd` with the first.
const ABC: &str =
    "495855310000000361626300000007612e7377696674000000014d00000000000000010000000200000007612e73776966740000000000000040396334393863616466323031343837396666643830636537663839666561623836613230333265306236623130643637363238653037383632346135363366350000000089fb523845df90b5aff46262f8c7e3d88786957aa1cd72c9c9885240c9debcc3";

const ABC_SECOND: &str =
    "495855310000000361626300000007612e7377696674000000014d00000000000000010000000200000007612e737769667400000000000000403632393362363432633063633432353637623037393965643161643234353130353530333064313337653435306536626234336562313763626162383964613800000000f4ad4a11cbbf4efdff0bab214f2b54e9ca0906123a8c76c654799f6d55bfe30d";

const ABD: &str =
    "495855310000000361626400000007612e7377696674000000014d00000000000000010000000200000007612e7377696674000000000000004039633439386361646632303134383739666664383063653766383966656162383661323033326530623662313064363736323865303738363234613536336635000000005cde4745e4bc7535c3e7b4496c498d92d9bea3e001b76dd3f4c397e1a0ba1a56";

/// A unit of output `abc` with both.
const BOTH: &str =
    "495855310000000361626300000007612e7377696674000000014d00000000000000020000000200000007612e73776966740000000000000040396334393863616466323031343837396666643830636537663839666561623836613230333265306236623130643637363238653037383632346135363366350000000200000007622e737769667400000000000000403632393362363432633063633432353637623037393965643161643234353130353530333064313337653435306536626234336562313763626162383964613800000000c09634fb516462e53d5b2618b01d06383bf034f29a963d38800857439f3b65f8";

/// A record file under its name.
fn body(alloc: Global, rt: &impl Abort, digits: &str) -> Body
    ensures { IsWhole ⟦<Sha as Naming>⟧.name_of result }
{
    let bytes = hex::decode(alloc, digits.as_bytes()).expect(rt, "digits");
    let name = Sha.name(bytes.as_slice());
    let _value = ix_record::decode(alloc, bytes.as_slice()).expect(rt, "a record");
    Body {
        name,
        bytes: Seq::of(bytes),
    }
}

/// The unit of a file.
fn unit(alloc: Global, rt: &impl Abort, digits: &str) -> Arc<UnitValue>
    ensures { IsValidUnit result.value }
{
    let bytes = hex::decode(alloc, digits.as_bytes()).expect(rt, "digits");
    let unit = ix_unit::decode(alloc, bytes.as_slice()).expect(rt, "a unit");
    Arc::new(alloc, unit).expect(rt, "memory")
}

/// Whether the lane may put the record of a name now.
fn may_put<D: Dir, N: Naming>(library: &Library<D, N>, lane: u32, name: FileName) -> bool
    ensures lane { result ≡ true → lane < length library.now.ledger.kept.guard.leases }
    ensures unstaged { result ≡ true → staged_in library.now.ledger.kept lane ≡ None }
    ensures leased { result ≡ true → option_any (leases_name name) (lease_of library.now.ledger.kept.guard lane) ≡ true }
{
    if !library.has_lane(lane) {
        return false;
    }
    if library.staged(lane).is_some() {
        return false;
    }
    library.has_leased(lane, name)
}

/// Whether the lane has staged a unit.
fn has_staged<D: Dir, N: Naming>(library: &Library<D, N>, lane: u32) -> bool
    ensures lane { result ≡ true → lane < length library.now.ledger.kept.guard.leases }
    ensures staged { result ≡ true → IsSome (staged_in library.now.ledger.kept lane) }
{
    if !library.has_lane(lane) {
        return false;
    }
    library.staged(lane).is_some()
}

/// Whether the lane has staged nothing.
fn is_free<D: Dir, N: Naming>(library: &Library<D, N>, lane: u32) -> bool
    ensures lane { result ≡ true → lane < length library.now.ledger.kept.guard.leases }
    ensures unstaged { result ≡ true → staged_in library.now.ledger.kept lane ≡ None }
{
    if !library.has_lane(lane) {
        return false;
    }
    library.staged(lane).is_none()
}

/// Whether the unit needs one record, of this name.
fn needs_alone(unit: &UnitValue, name: FileName) -> bool
    ensures { result ≡ true → (test : List ℕ → Bool) → test name ≡ true → AllByRecursion (λ dep. test dep.name ≡ true) unit.now.records }
{
    match unit.records.as_slice() {
        [dep] => dep.name == name,
        _ => false,
    }
}

/// Whether the unit needs two records, of these names.
fn needs_both(unit: &UnitValue, first: FileName, second: FileName) -> bool
    ensures { result ≡ true → (test : List ℕ → Bool) → test first ≡ true → test second ≡ true → AllByRecursion (λ dep. test dep.name ≡ true) unit.now.records }
{
    match unit.records.as_slice() {
        [dep, other] => dep.name == first && other.name == second,
        _ => false,
    }
}

/// Whether the first lane could lease the names.
fn leases<D: Dir, N: Naming>(alloc: Global, library: &mut Library<D, N>, names: &[FileName]) -> bool
    ensures { HasSlots library.old.ledger.kept (D.state library.old.dir) → HasSlots library.new.ledger.kept (D.state library.new.dir) }
{
    if !library.has_lane(0) {
        return false;
    }
    if library.has_lease(0) {
        return false;
    }
    match Vec::from_slice(alloc, names) {
        Ok(names) => library.lease(alloc, 0, &Seq::of(names)).is_ok(),
        Err(_wanting) => false,
    }
}

/// Whether the first lane could put a record.
fn puts<D: Dir, N: Naming>(alloc: Global, library: &mut Library<D, N>, body: &Body) -> bool
    requires { IsWhole N.name_of body.now }
    ensures noted { result ≡ true → was_put library.new.ledger.kept.guard 0 body.now.name ≡ true }
    ensures stays { result ≡ true → (other : List ℕ) → was_put library.old.ledger.kept.guard 0 other ≡ true → was_put library.new.ledger.kept.guard 0 other ≡ true }
    ensures ready { HasSlots library.old.ledger.kept (D.state library.old.dir) → HasSlots library.new.ledger.kept (D.state library.new.dir) }
{
    laws::puts_are_noted();
    if !may_put(library, 0, body.name) {
        return false;
    }
    match library.put(alloc, 0, body) {
        Ok(_put) => true,
        Err(_e) => false,
    }
}

/// How the first lane's publish of a unit ended, whose records it has put. None where its stage failed.
fn publishes<D: Dir, N: Naming>(
    alloc: Global,
    library: &mut Library<D, N>,
    unit: Arc<UnitValue>,
) -> Option<Settled>
    requires put { has_put_each unit.value.records (lease_of library.old.ledger.kept.guard 0) ≡ true }
    requires valid { IsValidUnit unit.value }
    requires ready { HasSlots library.old.ledger.kept (D.state library.old.dir) }
    ensures { HasSlots library.new.ledger.kept (D.state library.new.dir) }
{
    if !is_free(library, 0) {
        return None;
    }
    if library.stage(alloc, 0, unit).is_err() {
        return None;
    }
    if !has_staged(library, 0) {
        return None;
    }
    library.publish(alloc, 0).ok()
}

/// How a build of the first lane ended. None where it ended before its publish.
fn build<D: Dir, N: Naming>(
    alloc: Global,
    library: &mut Library<D, N>,
    body: &Body,
    unit: Arc<UnitValue>,
) -> Option<Settled>
    requires ready { HasSlots library.old.ledger.kept (D.state library.old.dir) }
    requires whole { IsWhole N.name_of body.now }
    requires valid { IsValidUnit unit.value }
    ensures { HasSlots library.new.ledger.kept (D.state library.new.dir) }
{
    laws::puts_are_noted();
    if !leases(alloc, library, &[body.name]) {
        return None;
    }
    if !puts(alloc, library, body) {
        return None;
    }
    if !needs_alone(&unit, body.name) {
        return None;
    }
    publishes(alloc, library, unit)
}

/// The same with a collect of the other lane behind the put, which finds nothing loose.
fn build_beside_a_collect<D: Dir, N: Naming>(
    alloc: Global,
    library: &mut Library<D, N>,
    body: &Body,
    unit: Arc<UnitValue>,
) -> Option<Settled>
    requires ready { HasSlots library.old.ledger.kept (D.state library.old.dir) }
    requires whole { IsWhole N.name_of body.now }
    requires valid { IsValidUnit unit.value }
    ensures { HasSlots library.new.ledger.kept (D.state library.new.dir) }
{
    laws::puts_are_noted();
    if !leases(alloc, library, &[body.name]) {
        return None;
    }
    if !puts(alloc, library, body) {
        return None;
    }
    match library.collect(alloc, 1) {
        Ok(Collected::Nothing) => {
            if !needs_alone(&unit, body.name) {
                return None;
            }
            publishes(alloc, library, unit)
        }
        _ => None,
    }
}

/// The same for a unit that needs two records.
fn build_both<D: Dir, N: Naming>(
    alloc: Global,
    library: &mut Library<D, N>,
    first: &Body,
    second: &Body,
    unit: Arc<UnitValue>,
) -> Option<Settled>
    requires ready { HasSlots library.old.ledger.kept (D.state library.old.dir) }
    requires first { IsWhole N.name_of first.now }
    requires second { IsWhole N.name_of second.now }
    requires valid { IsValidUnit unit.value }
    ensures { HasSlots library.new.ledger.kept (D.state library.new.dir) }
{
    laws::puts_are_noted();
    if !leases(alloc, library, &[first.name, second.name]) {
        return None;
    }
    if !puts(alloc, library, first) {
        return None;
    }
    if !puts(alloc, library, second) {
        return None;
    }
    if !needs_both(&unit, first.name, second.name) {
        return None;
    }
    publishes(alloc, library, unit)
}

/// A directory whose calls of these numbers fail, opened for two lanes.
fn opened(alloc: Global, rt: &impl Abort, fails: &[u64]) -> Library<MemoryDir, Sha>
    ensures { HasSlots result.ledger.kept (⟦<MemoryDir as Dir>⟧.state result.dir) }
{
    let fails = Vec::from_slice(alloc, fails).expect(rt, "memory");
    let dir = MemoryDir::failing(alloc, Seq::of(fails));
    match open_store(alloc, dir, Sha, 2) {
        Ok(started) => started.library,
        Err(_e) => panic!(rt; "not opened"),
    }
}

/// How many units an opening finds after a stop, where it refuses none.
fn units_after(alloc: Global, rt: &impl Abort, dir: &MemoryDir, pick: Pick) -> usize {
    let mut image = dir.stopped(alloc, pick).expect(rt, "memory");
    let found = check_store(alloc, &mut image, &Sha).expect(rt, "a look");
    assert!(rt; found.refused.as_slice().is_empty());
    found.units.as_slice().len()
}

/// Whether a build ends unsynced, and another one behind it synced.
fn publishes_twice(alloc: Global, rt: &impl Abort) -> bool {
    let first = body(alloc, rt, FIRST);
    let mut library = opened(alloc, rt, &[10]);
    if build(alloc, &mut library, &first, unit(alloc, rt, ABC)) != Some(Settled::Unsynced) {
        return false;
    }
    build(alloc, &mut library, &first, unit(alloc, rt, ABD)) == Some(Settled::Synced)
}

#[test]
fn a_change_that_pends_is_synced_by_the_next(rt: HostRuntime) {
    let alloc = rt.alloc();
    assert!(rt; publishes_twice(alloc, &rt));
}

/// Whether a collect fails at its sync, and the next one removes the record.
fn collects_behind_a_fault<D: Dir>(
    alloc: Global,
    library: &mut Library<D, Sha>,
    name: FileName,
) -> bool {
    if library.collect(alloc, 0) != Err(CollectError::Fault) {
        return false;
    }
    library.collect(alloc, 0) == Ok(Collected::Removed { name })
}

#[test]
fn a_collect_syncs_what_pends(rt: HostRuntime) {
    let alloc = rt.alloc();
    let first = body(alloc, &rt, FIRST);
    let second = body(alloc, &rt, SECOND);
    let mut library = opened(alloc, &rt, &[17, 18]);
    let _synced = build(alloc, &mut library, &first, unit(alloc, &rt, ABC));
    let _unsynced = build(alloc, &mut library, &second, unit(alloc, &rt, ABC_SECOND));
    assert!(rt; collects_behind_a_fault(alloc, &mut library, first.name));
}

/// Whether a unit is removed once, and no more.
fn removes_once<D: Dir>(
    alloc: Global,
    library: &mut Library<D, Sha>,
    output: &Text,
    name: FileName,
) -> bool {
    if library.remove(alloc, 0, output) != Ok(Settled::Synced) {
        return false;
    }
    library.remove(alloc, 0, output) == Err(RemoveError::NoUnit { name })
}

#[test]
fn what_is_published_stays_and_is_removed(rt: HostRuntime) {
    let alloc = rt.alloc();
    let first = body(alloc, &rt, FIRST);
    let output = Text::read(alloc, b"abc").expect(&rt, "a path");
    let mut library = opened(alloc, &rt, &[]);
    let unit = unit(alloc, &rt, ABC);
    let _synced = build_beside_a_collect(alloc, &mut library, &first, unit);
    assert!(rt; library.collect(alloc, 0) == Ok(Collected::Nothing));
    assert!(rt; removes_once(alloc, &mut library, &output, Sha.name(b"abc")));
}

/// The numbers of the calls behind the first ones.
fn calls_behind(alloc: Global, rt: &impl Abort, first: u64) -> Vec<u64>
    requires { first < 100 }
{
    let mut calls = Vec::new(alloc);
    for call in 1..=200 {
        calls.push(first + call).expect(rt, "memory");
    }
    calls
}

/// The least and the most units that are found after a stop behind so many calls of a build.
fn units_after_calls(alloc: Global, rt: &impl Abort, calls: u64) -> (usize, usize)
    requires { calls < 100 }
{
    let first = body(alloc, rt, FIRST);
    let second = body(alloc, rt, SECOND);
    let fails = calls_behind(alloc, rt, calls);
    let mut library = opened(alloc, rt, fails.as_slice());
    let unit = unit(alloc, rt, BOTH);
    let _ended = build_both(alloc, &mut library, &first, &second, unit);
    let dir = library.into_dir();
    (
        units_after(alloc, rt, &dir, Pick::Oldest),
        units_after(alloc, rt, &dir, Pick::Newest),
    )
}

#[test]
fn a_stop_leaves_the_unit_or_none(rt: HostRuntime) {
    let alloc = rt.alloc();
    // Three calls open, six put two records, one stages, and three publish.
    for calls in 3..12 {
        assert!(rt; units_after_calls(alloc, &rt, calls) == (0, 0));
    }
    assert!(rt; units_after_calls(alloc, &rt, 12) == (0, 1));
    assert!(rt; units_after_calls(alloc, &rt, 13) == (1, 1));
}
