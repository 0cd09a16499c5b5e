//! The changes of a put, a publish, a removal and a collect, with the syncs before them.
ghost use Rattle.std.specs.Prelude.{◌≡◌, ◌≢◌, ◌⊎◌, ◌+◌, ◌<◌, ◌≤◌, ℕ, List, Bool, true, false, is_some, is_err, IfOk, IfSome, OnOk, OnErr, IsTrue, IsSome, Ok, Err, Some, None, nat_eq};
ghost use Rattle.ix_dir.specs.declared.area.Area.TheVariants.{Units, Records};
ghost use Rattle.ix_types.specs.Count.{counted};
ghost use Rattle.ix_dir.specs.Calls.{Renames, removed};
ghost use Rattle.ix_dir.specs.State.{is_staged, staged_bytes, counted_where};
ghost use Rattle.ix_dir.specs.WhatAChangeLeaves.{AddsTo};
ghost use Rattle.ix_record.specs.declared.body.Body.{Body};
ghost use Rattle.ix_unit.specs.declared.value.UnitValue.{UnitValue};
ghost use Rattle.ix_unit.specs.Spelling.{UnitSpelling};
ghost use Rattle.ix_shelf.specs.Answers.{put_failed};
ghost use Rattle.ix_cabinet.specs.Changes.{Publishes, settled_by};
ghost use Rattle.ix_machine.specs.declared.event.Outcome.TheVariants as outcome;
ghost use Rattle.ix_machine.specs.Given as given;
ghost use Rattle.ix_machine.specs.Needs.{is_guarded, visible};
ghost use Rattle.ix_machine.specs.Sound.{IsSound};
ghost use Rattle.ix_machine.specs.State.{State, Lease, lease_of};
ghost use Rattle.ix_machine.specs.Step.{Stepped, step, ended, name_with_output};
ghost use Rattle.ix_stops.specs.Stands.{flag_of, outcome_of};
ghost use Rattle.ix_changes.specs.Holds.{Holds, Leads, IsAlikeOnDisk};
ghost use Rattle.ix_changes.specs.Syncs.{with_sync, with_syncs, IsStoppedIn, did_fail};

use crate::laws;
use ix_cabinet::{Settled, publish_unit, remove_unit};
use ix_dir::laws::calls_add_moves;
use ix_dir::{Area, Dir};
use ix_record::Body;
use ix_shelf::{Put, PutError, Shelf};
use ix_types::{Failed, FileName};
use std::alloc::Global;

/// Makes a record file stand under its name, as the shelf does. Where the name is said to be protected that is guarded in a state which the
/// directory holds, it ends as the machine's put, and the directory holds the state behind that.
pub fn put<D: Dir>(
    alloc: Global,
    dir: &mut D,
    shelf: &mut Shelf,
    slot: u32,
    body: &Body,
    protected: bool,
) -> Result<Put, PutError>
    requires { 0 < (D.state dir.old).spare }
    ensures written { (name_of : List ℕ → List ℕ) (s : State) (lane : ℕ) → Holds name_of s shelf.old (D.state dir.old).moves → IsSound name_of s → protected ≡ is_guarded s lane body.now.name → result ≡ Ok Put.Written → (next : State) × (step name_of s lane (given.Put body.now) outcome.Done ≡ Some (ended outcome.Written next)) × Leads name_of s next (D.state dir.old).moves (D.state dir.new).moves shelf.new }
    ensures shared { (name_of : List ℕ → List ℕ) (s : State) (lane : ℕ) → Holds name_of s shelf.old (D.state dir.old).moves → protected ≡ is_guarded s lane body.now.name → result ≡ Ok Put.Shared → (next : State) × (step name_of s lane (given.Put body.now) outcome.Done ≡ Some (ended outcome.Shared next)) × Leads name_of s next (D.state dir.old).moves (D.state dir.new).moves shelf.new }
    ensures clashed { (name_of : List ℕ → List ℕ) (s : State) (lane : ℕ) (name : List ℕ) → Holds name_of s shelf.old (D.state dir.old).moves → protected ≡ is_guarded s lane body.now.name → result ≡ Err (PutError.Clash name) → (next : State) × (step name_of s lane (given.Put body.now) outcome.Done ≡ Some (ended outcome.Clash next)) × Leads name_of s next (D.state dir.old).moves (D.state dir.new).moves shelf.new }
    ensures name { (name : List ℕ) → result ≡ Err (PutError.Clash name) → name ≡ body.now.name }
    ensures guarded { (name : List ℕ) → result ≡ Err (PutError.Clash name) → protected ≡ true }
    ensures renamed { result ≡ Ok Put.Written → Renames (D.state dir.old).moves (D.state dir.new).moves Records body.now.name body.now.bytes }
    ensures unsynced { result ≡ Ok Put.Written → shelf.new.unsynced ≡ true }
    ensures found { ((D.state dir.new).finds ≡ (D.state dir.old).finds) ⊎ ((D.state dir.new).finds ≡ counted (D.state dir.old).finds) }
    ensures listings { (D.state dir.new).listings ≡ (D.state dir.old).listings }
    ensures kept { result ≢ Ok Put.Written → (D.state dir.new).moves ≡ (D.state dir.old).moves }
    ensures same { result ≢ Ok Put.Written → shelf.new ≡ shelf.old }
    ensures added { AddsTo (D.state dir.old).moves (D.state dir.new).moves }
    ensures cause { (D.state dir.new).faults ≡ counted_where (put_failed result) (D.state dir.old).faults }
    ensures slots { (other : ℕ) → nat_eq slot other ≡ false → (D.state dir.new).slots other ≡ (D.state dir.old).slots other }
{
    laws::given();
    shelf.put(alloc, dir, slot, body, protected)
}

/// Puts a staged unit file at its name: behind a sync of the records where one waits for it, and one of the units where a change of them is said
/// to pend. The units are synced behind it. After a failure at most the first syncs were made.
pub fn publish<D: Dir>(
    dir: &mut D,
    shelf: &mut Shelf,
    slot: u32,
    name: FileName,
    pending: bool,
) -> Result<Settled, Failed>
    requires staged { IsTrue (is_staged (D.state dir.old) slot) }
    requires room { 4 ≤ (D.state dir.old).spare }
    ensures made { (name_of : List ℕ → List ℕ) (s : State) (lane : ℕ) (lease : Lease) (unit : UnitValue) (settled : Settled) (stepped : Stepped) → Holds name_of s shelf.old (D.state dir.old).moves → IsSound name_of s → lease_of s lane ≡ Some lease → lease.staged ≡ Some unit → name ≡ name_of unit.output → UnitSpelling (staged_bytes (D.state dir.old) slot) unit → pending ≡ is_some s.pending → result ≡ Ok settled → step name_of s lane given.Publish (flag_of settled) ≡ Some stepped → stepped.outcome ≡ outcome_of settled → Leads name_of s stepped.state (D.state dir.old).moves (D.state dir.new).moves shelf.new }
    ensures failed { (name_of : List ℕ → List ℕ) (s next : State) → Holds name_of s shelf.old (D.state dir.old).moves → IsAlikeOnDisk s next → is_err result ≡ true → Leads name_of s next (D.state dir.old).moves (D.state dir.new).moves shelf.new }
    // The moves, exactly, and how far they came where it failed.
    ensures published { IfOk result (λ settled. Publishes settled name (staged_bytes (D.state dir.old) slot) (with_syncs shelf.old.unsynced pending (D.state dir.old).moves) (D.state dir.new).moves) }
    ensures part { OnErr result (IsStoppedIn pending shelf.old shelf.new (D.state dir.old).moves (D.state dir.new).moves) }
    ensures synced { OnOk result (shelf.new.unsynced ≡ false) }
    ensures added { AddsTo (D.state dir.old).moves (D.state dir.new).moves }
    ensures listings { (D.state dir.new).listings ≡ (D.state dir.old).listings }
    ensures finds { (D.state dir.new).finds ≡ (D.state dir.old).finds }
    ensures cause { (D.state dir.new).faults ≡ counted_where (did_fail result) (D.state dir.old).faults }
    ensures slots { (other : ℕ) → nat_eq slot other ≡ false → (D.state dir.new).slots other ≡ (D.state dir.old).slots other }
{
    laws::given();
    settle_and_publish(dir, shelf, slot, name, pending)
}

/// Takes a unit file away: behind a sync of the units where a change of them is said to pend. The units are synced behind it. After a failure at
/// most the first sync was made.
pub fn remove<D: Dir>(
    dir: &mut D,
    shelf: &mut Shelf,
    name: FileName,
    pending: bool,
) -> Result<Settled, Failed>
    requires { 3 ≤ (D.state dir.old).spare }
    ensures made { (name_of : List ℕ → List ℕ) (s : State) (lane : ℕ) (output : List ℕ) (settled : Settled) (stepped : Stepped) → Holds name_of s shelf.old (D.state dir.old).moves → name_with_output output (visible s) ≡ Some name → pending ≡ is_some s.pending → result ≡ Ok settled → step name_of s lane (given.Remove output) (flag_of settled) ≡ Some stepped → Leads name_of s stepped.state (D.state dir.old).moves (D.state dir.new).moves shelf.new }
    ensures failed { (name_of : List ℕ → List ℕ) (s next : State) → Holds name_of s shelf.old (D.state dir.old).moves → IsAlikeOnDisk s next → is_err result ≡ true → Leads name_of s next (D.state dir.old).moves (D.state dir.new).moves shelf.new }
    ensures shelf { shelf.new ≡ shelf.old }
    // The moves, exactly, and how far they came where it failed.
    ensures removed { IfOk result (λ settled. (D.state dir.new).moves ≡ settled_by settled (removed (with_sync pending Units (D.state dir.old).moves) Units name)) }
    ensures part { OnErr result (((D.state dir.new).moves ≡ (D.state dir.old).moves) ⊎ ((D.state dir.new).moves ≡ with_sync pending Units (D.state dir.old).moves)) }
    ensures added { AddsTo (D.state dir.old).moves (D.state dir.new).moves }
    ensures listings { (D.state dir.new).listings ≡ (D.state dir.old).listings }
    ensures finds { (D.state dir.new).finds ≡ (D.state dir.old).finds }
    ensures cause { (D.state dir.new).faults ≡ counted_where (did_fail result) (D.state dir.old).faults }
    ensures slots { (D.state dir.new).slots ≡ (D.state dir.old).slots }
{
    laws::given();
    settle_and_remove(dir, name, pending)
}

/// Takes the record file away that is loose, where there is one: behind a sync of the units where a change of them is said to pend. After a
/// failure at most the sync was made.
pub fn collect<D: Dir>(
    dir: &mut D,
    shelf: &mut Shelf,
    loose: Option<FileName>,
    pending: bool,
) -> Result<(), Failed>
    requires { 2 ≤ (D.state dir.old).spare }
    ensures removed { (name_of : List ℕ → List ℕ) (s : State) (lane : ℕ) (name : List ℕ) (stepped : Stepped) → Holds name_of s shelf.old (D.state dir.old).moves → IsSound name_of s → loose ≡ Some name → pending ≡ is_some s.pending → is_err result ≡ false → step name_of s lane given.Collect outcome.Done ≡ Some stepped → stepped.outcome ≡ outcome.Removed name → Leads name_of s stepped.state (D.state dir.old).moves (D.state dir.new).moves shelf.new }
    ensures nothing { (name_of : List ℕ → List ℕ) (s : State) (lane : ℕ) (stepped : Stepped) → Holds name_of s shelf.old (D.state dir.old).moves → IsSound name_of s → loose ≡ None → pending ≡ is_some s.pending → is_err result ≡ false → step name_of s lane given.Collect outcome.Done ≡ Some stepped → stepped.outcome ≡ outcome.Nothing → Leads name_of s stepped.state (D.state dir.old).moves (D.state dir.new).moves shelf.new }
    ensures failed { (name_of : List ℕ → List ℕ) (s next : State) → Holds name_of s shelf.old (D.state dir.old).moves → IsAlikeOnDisk s next → is_err result ≡ true → Leads name_of s next (D.state dir.old).moves (D.state dir.new).moves shelf.new }
    // The moves, exactly, and how far they came where it failed.
    ensures gone { OnOk result ((name : List ℕ) → loose ≡ Some name → (D.state dir.new).moves ≡ removed (with_sync pending Units (D.state dir.old).moves) Records name) }
    ensures none_gone { OnOk result (loose ≡ None → (D.state dir.new).moves ≡ with_sync pending Units (D.state dir.old).moves) }
    ensures part { OnErr result (((D.state dir.new).moves ≡ (D.state dir.old).moves) ⊎ ((D.state dir.new).moves ≡ with_sync pending Units (D.state dir.old).moves)) }
    ensures unsynced { OnOk result (IsSome loose → shelf.new.unsynced ≡ true) }
    ensures same { loose ≡ None → shelf.new ≡ shelf.old }
    ensures after { OnErr result (shelf.new ≡ shelf.old) }
    ensures added { AddsTo (D.state dir.old).moves (D.state dir.new).moves }
    ensures listings { (D.state dir.new).listings ≡ (D.state dir.old).listings }
    ensures finds { (D.state dir.new).finds ≡ (D.state dir.old).finds }
    ensures cause { (D.state dir.new).faults ≡ counted_where (is_err result) (D.state dir.old).faults }
    ensures slots { (D.state dir.new).slots ≡ (D.state dir.old).slots }
{
    laws::given();
    settle_and_collect(dir, shelf, loose, pending)
}

// ---- the calls of each

/// Syncs the units where a change of them is said to pend.
fn settle_units<D: Dir>(dir: &mut D, pending: bool) -> Result<(), Failed>
    requires { 0 < (D.state dir.old).spare }
    ensures synced { OnOk result ((D.state dir.new).moves ≡ with_sync pending Units (D.state dir.old).moves) }
    ensures failed { OnErr result ((D.state dir.new).moves ≡ (D.state dir.old).moves) }
    ensures added { AddsTo (D.state dir.old).moves (D.state dir.new).moves }
    ensures room { (D.state dir.old).spare ≤ (D.state dir.new).spare + 1 }
    ensures state { D.state dir.new ≡ record (D.state dir.old) { moves = (D.state dir.new).moves; spare = (D.state dir.new).spare; faults = counted_where (is_err result) (D.state dir.old).faults } }
{
    calls_add_moves();
    if pending {
        dir.sync(Area::Units)?;
    }
    Ok(())
}

/// Syncs the records where one waits for it.
fn settle_records<D: Dir>(dir: &mut D, shelf: &mut Shelf) -> Result<(), Failed>
    requires { 0 < (D.state dir.old).spare }
    ensures synced { OnOk result ((D.state dir.new).moves ≡ with_sync shelf.old.unsynced Records (D.state dir.old).moves) }
    ensures failed { OnErr result ((D.state dir.new).moves ≡ (D.state dir.old).moves) }
    ensures done { OnOk result (shelf.new.unsynced ≡ false) }
    ensures same { OnErr result (shelf.new ≡ shelf.old) }
    ensures added { AddsTo (D.state dir.old).moves (D.state dir.new).moves }
    ensures room { (D.state dir.old).spare ≤ (D.state dir.new).spare + 1 }
    ensures state { D.state dir.new ≡ record (D.state dir.old) { moves = (D.state dir.new).moves; spare = (D.state dir.new).spare; faults = counted_where (is_err result) (D.state dir.old).faults } }
{
    shelf.settle(dir)
}

/// Both syncs, that of the records first.
fn settle_both<D: Dir>(dir: &mut D, shelf: &mut Shelf, pending: bool) -> Result<(), Failed>
    requires { 2 ≤ (D.state dir.old).spare }
    ensures synced { OnOk result ((D.state dir.new).moves ≡ with_syncs shelf.old.unsynced pending (D.state dir.old).moves) }
    ensures part { OnErr result (IsStoppedIn pending shelf.old shelf.new (D.state dir.old).moves (D.state dir.new).moves) }
    ensures added { AddsTo (D.state dir.old).moves (D.state dir.new).moves }
    ensures room { (D.state dir.old).spare ≤ (D.state dir.new).spare + 2 }
    ensures slots { (D.state dir.new).slots ≡ (D.state dir.old).slots }
    ensures faults { (D.state dir.new).faults ≡ counted_where (is_err result) (D.state dir.old).faults }
    ensures done { OnOk result (shelf.new.unsynced ≡ false) }
    ensures listings { (D.state dir.new).listings ≡ (D.state dir.old).listings }
    ensures finds { (D.state dir.new).finds ≡ (D.state dir.old).finds }
{
    calls_add_moves();
    settle_records(dir, shelf)?;
    settle_units(dir, pending)
}

/// Both syncs, and the publication behind them.
fn settle_and_publish<D: Dir>(
    dir: &mut D,
    shelf: &mut Shelf,
    slot: u32,
    name: FileName,
    pending: bool,
) -> Result<Settled, Failed>
    requires staged { IsTrue (is_staged (D.state dir.old) slot) }
    requires room { 4 ≤ (D.state dir.old).spare }
    ensures made { IfOk result (λ settled. Publishes settled name (staged_bytes (D.state dir.old) slot) (with_syncs shelf.old.unsynced pending (D.state dir.old).moves) (D.state dir.new).moves) }
    ensures part { OnErr result (IsStoppedIn pending shelf.old shelf.new (D.state dir.old).moves (D.state dir.new).moves) }
    ensures added { AddsTo (D.state dir.old).moves (D.state dir.new).moves }
    ensures faults { (D.state dir.new).faults ≡ counted_where (did_fail result) (D.state dir.old).faults }
    ensures slots { (other : ℕ) → nat_eq slot other ≡ false → (D.state dir.new).slots other ≡ (D.state dir.old).slots other }
    ensures done { OnOk result (shelf.new.unsynced ≡ false) }
    ensures listings { (D.state dir.new).listings ≡ (D.state dir.old).listings }
    ensures finds { (D.state dir.new).finds ≡ (D.state dir.old).finds }
{
    calls_add_moves();
    settle_both(dir, shelf, pending)?;
    publish_unit(dir, slot, name)
}

/// The sync, and the removal behind it.
fn settle_and_remove<D: Dir>(dir: &mut D, name: FileName, pending: bool) -> Result<Settled, Failed>
    requires { 3 ≤ (D.state dir.old).spare }
    ensures made { IfOk result (λ settled. (D.state dir.new).moves ≡ settled_by settled (removed (with_sync pending Units (D.state dir.old).moves) Units name)) }
    ensures part { OnErr result (((D.state dir.new).moves ≡ (D.state dir.old).moves) ⊎ ((D.state dir.new).moves ≡ with_sync pending Units (D.state dir.old).moves)) }
    ensures added { AddsTo (D.state dir.old).moves (D.state dir.new).moves }
    ensures faults { (D.state dir.new).faults ≡ counted_where (did_fail result) (D.state dir.old).faults }
    ensures slots { (D.state dir.new).slots ≡ (D.state dir.old).slots }
    ensures listings { (D.state dir.new).listings ≡ (D.state dir.old).listings }
    ensures finds { (D.state dir.new).finds ≡ (D.state dir.old).finds }
{
    calls_add_moves();
    settle_units(dir, pending)?;
    remove_unit(dir, name)
}

/// The sync, and the removal of a record behind it, where there is one to remove.
fn settle_and_collect<D: Dir>(
    dir: &mut D,
    shelf: &mut Shelf,
    loose: Option<FileName>,
    change_pends: bool,
) -> Result<(), Failed>
    requires { 2 ≤ (D.state dir.old).spare }
    ensures removed { OnOk result ((name : List ℕ) → loose ≡ Some name → (D.state dir.new).moves ≡ removed (with_sync change_pends Units (D.state dir.old).moves) Records name) }
    ensures nothing { OnOk result (loose ≡ None → (D.state dir.new).moves ≡ with_sync change_pends Units (D.state dir.old).moves) }
    ensures part { OnErr result (((D.state dir.new).moves ≡ (D.state dir.old).moves) ⊎ ((D.state dir.new).moves ≡ with_sync change_pends Units (D.state dir.old).moves)) }
    ensures unsynced { OnOk result (IsSome loose → shelf.new.unsynced ≡ true) }
    ensures same { loose ≡ None → shelf.new ≡ shelf.old }
    ensures after { OnErr result (shelf.new ≡ shelf.old) }
    ensures added { AddsTo (D.state dir.old).moves (D.state dir.new).moves }
    ensures faults { (D.state dir.new).faults ≡ counted_where (is_err result) (D.state dir.old).faults }
    ensures slots { (D.state dir.new).slots ≡ (D.state dir.old).slots }
    ensures listings { (D.state dir.new).listings ≡ (D.state dir.old).listings }
    ensures finds { (D.state dir.new).finds ≡ (D.state dir.old).finds }
{
    calls_add_moves();
    settle_units(dir, change_pends)?;
    match loose {
        Some(name) => shelf.remove(dir, name),
        None => Ok(()),
    }
}
