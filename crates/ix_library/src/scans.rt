//! Scans of the units.
ghost use Rattle.std.specs.Prelude.{◌≡◌, ◌⊎◌, ℕ, List, map, filter, not, true, All, Some, None, Err, IfOk, IfErr, IfSome, IsSome, OnOk};
ghost use Rattle.std.specs.List.Sorted.{IsStrictlySortedBy};
ghost use Rattle.ix_types.specs.Count.{counted};
ghost use Rattle.ix_types.specs.Row.{text_cmp};
ghost use Rattle.ix_dir.specs.State.{counted_where};
ghost use Rattle.ix_shelf.specs.Shelf.{OnShelf};
ghost use Rattle.ix_cabinet.specs.Scan.{changed, gone, scan_failed, IsNamedUnit, HoldsUnits};
ghost use Rattle.ix_model.specs.Units.{Units, needs};
ghost use Rattle.ix_answers.specs.Batches.{LeadsTo, HaveOneValue};
ghost use Rattle.ix_machine.specs.declared.event.Call.TheVariants as call;
ghost use Rattle.ix_machine.specs.declared.event.Outcome.TheVariants as outcome;
ghost use Rattle.ix_machine.specs.Given as given;
ghost use Rattle.ix_machine.specs.Needs.{has_name, seen_at, visible};
ghost use Rattle.ix_machine.specs.State.{State};
ghost use Rattle.ix_changes.specs.Holds.{Holds};
ghost use Rattle.ix_changes.specs.Stamps.{AreStampsOf};
ghost use Rattle.ix_ledger.specs.Books.{event, logged};
ghost use Rattle.ix_ledger.specs.Effects.{opened};
ghost use Rattle.ix_ledger.specs.Fresh.{fresh_of};
ghost use Rattle.ix_library.specs.Endings.{flag_for, with_event};
ghost use Rattle.ix_library.specs.LookEndings.{scan_flag, scan_ending, scan_leaves, known_behind_scan};
ghost use Rattle.ix_library.specs.Looks.{StandsThere};
ghost use Rattle.ix_library.specs.StandsFor.{HasSlots, StandsFor, Takes};

use crate::failures::end_failed_scan;
use crate::given::given;
use crate::known::KnownStamps;
use crate::library::Library;
use ix_cabinet::{ScanError, Scanned, Stamps};
use ix_dir::Dir;
use ix_guard::NeedList;
use ix_ledger::Ledger;
use ix_types::{FileName, Naming, Seq};
use ix_unit::{Scan, UnitPut};
use std::alloc::Global;

impl<D: Dir, N: Naming> Library<D, N> {
    /// Looks through the unit files for what changed since the current version, and opens an import of the visible units for the lane: an earlier one
    /// is closed, also by a scan that fails. After want of memory all is as before.
    pub fn scan(&mut self, alloc: Global, lane: u32) -> Result<Scan, ScanError>
        requires { StandsThere N.name_of self.old.ledger.kept self.old.shelf self.old.known (D.state self.old.dir) }
        // Where the library stands for a state.
        ensures step { (s : State) → StandsFor N.name_of s self.old.ledger.kept self.old.shelf self.old.known (D.state self.old.dir) → IfSome (scan_ending result) (λ how. Takes N.name_of s lane given.Scan (flag_for how) how (D.state self.old.dir) self.new.ledger.kept self.new.shelf self.new.known (D.state self.new.dir)) }
        ensures leads { (s : State) → StandsFor N.name_of s self.old.ledger.kept self.old.shelf self.old.known (D.state self.old.dir) → IfOk result (λ scan. LeadsTo scan.batch.puts scan.batch.gone (seen_at s s.current) (seen_at s scan.mark)) }
        ensures fresh { (s : State) → StandsFor N.name_of s self.old.ledger.kept self.old.shelf self.old.known (D.state self.old.dir) → IfOk result (λ scan. scan.fresh ≡ filter (λ name. not (has_name name (needs (seen_at s s.current)))) (needs (seen_at s scan.mark))) }
        ensures values { (s : State) → StandsFor N.name_of s self.old.ledger.kept self.old.shelf self.old.known (D.state self.old.dir) → IfOk result (λ scan. HaveOneValue (seen_at s s.current) (seen_at s scan.mark)) }

        // Over each directory: what the scan gives, by the stamps that were known of the current version and those that there are now.
        ensures mark { IfOk result (λ scan. scan.mark ≡ self.old.ledger.kept.published) }
        ensures names { IfOk result (λ scan. scan.fresh ≡ fresh_of self.old.ledger.kept.guard.current scan.batch.puts) }
        ensures changed { IfOk result (λ scan. IfSome self.new.known.import (λ now. map (λ p. p.name) scan.batch.puts ≡ changed self.old.known.current now)) }
        ensures gone { IfOk result (λ scan. IfSome self.new.known.import (λ now. scan.batch.gone ≡ gone self.old.known.current now)) }
        ensures puts_rise { IfOk result (λ scan. IsStrictlySortedBy text_cmp (map (λ p. p.name) scan.batch.puts)) }
        ensures gone_rise { IfOk result (λ scan. IsStrictlySortedBy text_cmp scan.batch.gone) }
        ensures units { IfOk result (λ scan. All (IsNamedUnit N.name_of) scan.batch.puts) }

        // What is kept, what is known and what happened.
        ensures event { self.new.ledger.events ≡ with_event self.old.ledger.events lane call.Scan (scan_ending result) }
        ensures kept { self.new.ledger.kept ≡ scan_leaves result self.old.ledger.kept lane }
        ensures stamped { OnOk result (IsSome self.new.known.import) }
        ensures current { self.new.known.current ≡ self.old.known.current }
        ensures known { IfErr result (λ e. self.new.known ≡ known_behind_scan (scan_flag e) self.old.known) }

        // Two counts of the directory alone change. A scan, and a file that is missing or isn't its unit's, come from a list that was made.
        ensures dir { D.state self.new.dir ≡ record (D.state self.old.dir) { faults = counted_where (scan_failed result) (D.state self.old.dir).faults; listings = (D.state self.new.dir).listings } }
        ensures listed { OnOk result ((D.state self.new.dir).listings ≡ counted (D.state self.old.dir).listings) }
        ensures lost { (n : List ℕ) → result ≡ Err (ScanError.Lost n) → ((D.state self.old.dir).moves ≡ None) × ((D.state self.new.dir).listings ≡ counted (D.state self.old.dir).listings) }
        ensures damaged { (n : List ℕ) → result ≡ Err (ScanError.Damaged n) → ((D.state self.old.dir).moves ≡ None) × ((D.state self.new.dir).listings ≡ counted (D.state self.old.dir).listings) }
        ensures once { ((D.state self.new.dir).listings ≡ (D.state self.old.dir).listings) ⊎ ((D.state self.new.dir).listings ≡ counted (D.state self.old.dir).listings) }
        ensures shelf { self.new.shelf ≡ self.old.shelf }
        ensures again { (s : State) → StandsFor N.name_of s self.old.ledger.kept self.old.shelf self.old.known (D.state self.old.dir) → result ≡ Err ScanError.Memory → StandsFor N.name_of s self.new.ledger.kept self.new.shelf self.new.known (D.state self.new.dir) }
        ensures ready { HasSlots self.old.ledger.kept (D.state self.old.dir) → HasSlots self.new.ledger.kept (D.state self.new.dir) }
    {
        given();
        ix_ledger::laws::each_step_is_the_machines();
        ix_ledger::laws::fresh_names_are_those();
        ix_looks::laws::what_is_held_may_be_looked_at();
        ix_looks::laws::records_that_stand_have_one_value();
        ix_looks::laws::a_batch_brings_what_is_new();
        ix_model::laws::the_latest_publication_stands();
        let looked = look(
            alloc,
            &mut self.dir,
            &self.naming,
            &mut self.ledger,
            &self.known.current,
        );
        match looked {
            Ok(looked) => Ok(end_scan(&mut self.ledger, &mut self.known, lane, looked)),
            Err(error) => {
                end_failed_scan(&mut self.ledger, &mut self.known, lane, &error);
                Err(error)
            }
        }
    }
}

/// What a scan has to hand before it is a step.
struct Looked {
    scanned: Scanned,
    /// What the visible units need.
    needs: NeedList,
    /// The names of the records that are new.
    fresh: Seq<FileName>,
}

/// Takes the memory of a scan, and looks through the unit files. Of the ledger nothing changes but the room for an event.
fn look<D: Dir, N: Naming>(
    alloc: Global,
    dir: &mut D,
    naming: &N,
    ledger: &mut Ledger,
    known: &Stamps,
) -> Result<Looked, ScanError>
    requires { IfSome (D.state dir.old).moves (HoldsUnits N.name_of) }
    ensures leads { (s : State) (shelf : OnShelf) (before : Units) → Holds N.name_of s shelf (D.state dir.old).moves → IfSome (D.state dir.old).moves (AreStampsOf N.name_of before known.now) → IfOk result (λ looked. LeadsTo looked.scanned.batch.puts looked.scanned.batch.gone before (visible s)) }
    ensures stamps { (s : State) (shelf : OnShelf) → Holds N.name_of s shelf (D.state dir.old).moves → IfOk result (λ looked. IfSome (D.state dir.new).moves (AreStampsOf N.name_of (visible s) looked.scanned.stamps)) }
    ensures changed { IfOk result (λ looked. map (λ p. p.name) looked.scanned.batch.puts ≡ changed known.now looked.scanned.stamps) }
    ensures gone { IfOk result (λ looked. looked.scanned.batch.gone ≡ gone known.now looked.scanned.stamps) }
    ensures puts_rise { IfOk result (λ looked. IsStrictlySortedBy text_cmp (map (λ p. p.name) looked.scanned.batch.puts)) }
    ensures gone_rise { IfOk result (λ looked. IsStrictlySortedBy text_cmp looked.scanned.batch.gone) }
    ensures units { IfOk result (λ looked. All (IsNamedUnit N.name_of) looked.scanned.batch.puts) }
    ensures needs { IfOk result (λ looked. looked.needs ≡ ledger.old.kept.guard.visible) }
    ensures fresh { IfOk result (λ looked. looked.fresh ≡ fresh_of ledger.old.kept.guard.current looked.scanned.batch.puts) }
    ensures ledger { ledger.new ≡ record ledger.old { has_room = ledger.new.has_room } }
    ensures room { OnOk result (ledger.new.has_room ≡ true) }
    ensures failed { IfErr result (λ e. IsSome (scan_flag e) → ledger.new.has_room ≡ true) }
    ensures state { D.state dir.new ≡ record (D.state dir.old) { faults = counted_where (scan_failed result) (D.state dir.old).faults; listings = (D.state dir.new).listings } }
    ensures listed { OnOk result ((D.state dir.new).listings ≡ counted (D.state dir.old).listings) }
    ensures lost { (n : List ℕ) → result ≡ Err (ScanError.Lost n) → ((D.state dir.old).moves ≡ None) × ((D.state dir.new).listings ≡ counted (D.state dir.old).listings) }
    ensures damaged { (n : List ℕ) → result ≡ Err (ScanError.Damaged n) → ((D.state dir.old).moves ≡ None) × ((D.state dir.new).listings ≡ counted (D.state dir.old).listings) }
    ensures once { ((D.state dir.new).listings ≡ (D.state dir.old).listings) ⊎ ((D.state dir.new).listings ≡ counted (D.state dir.old).listings) }
{
    let needs = room_for_scan(ledger)?;
    let scanned = ix_looks::scan(alloc, dir, naming, known)?;
    let fresh = fresh_in(alloc, ledger, &scanned.batch.puts)?;
    Ok(Looked {
        scanned,
        needs,
        fresh,
    })
}

/// What the visible units need, and room for an event.
fn room_for_scan(ledger: &mut Ledger) -> Result<NeedList, ScanError>
    ensures needs { IfOk result (λ needs. needs ≡ ledger.old.kept.guard.visible) }
    ensures room { OnOk result (ledger.new.has_room ≡ true) }
    ensures same { ledger.new ≡ record ledger.old { has_room = ledger.new.has_room } }
    ensures wanting { IfErr result (λ e. e ≡ ScanError.Memory) }
{
    if ledger.reserve().is_err() {
        return Err(ScanError::Memory);
    }
    match ledger.scanning() {
        Ok(needs) => Ok(needs),
        Err(_wanting) => Err(ScanError::Memory),
    }
}

/// The names of the records of these units that the current version doesn't need.
fn fresh_in(alloc: Global, ledger: &Ledger, puts: &Seq<UnitPut>) -> Result<Seq<FileName>, ScanError>
    ensures names { IfOk result (λ names. names ≡ fresh_of ledger.now.kept.guard.current puts.now) }
    ensures wanting { IfErr result (λ e. e ≡ ScanError.Memory) }
{
    match ledger.fresh(alloc, puts) {
        Ok(names) => Ok(names),
        Err(_wanting) => Err(ScanError::Memory),
    }
}

/// The scan is a step: an import of the visible units is open. Takes no memory.
fn end_scan(ledger: &mut Ledger, known: &mut KnownStamps, lane: u32, looked: Looked) -> Scan
    requires needs { looked.needs ≡ ledger.old.kept.guard.visible }
    requires room { ledger.old.has_room ≡ true }
    ensures scan { result ≡ record { mark = ledger.old.kept.published; batch = looked.scanned.batch; fresh = looked.fresh } }
    ensures ledger { ledger.new ≡ logged ledger.old (opened ledger.old.kept lane) (event lane call.Scan (outcome.At ledger.old.kept.published)) }
    ensures known { known.new ≡ record known.old { import = Some looked.scanned.stamps } }
{
    let Looked {
        scanned: Scanned { batch, stamps },
        needs,
        fresh,
    } = looked;
    let mark = ledger.published();
    ledger.scan_made(lane, needs);
    known.import = Some(stamps);
    Scan { mark, batch, fresh }
}
