//! Opening a store, and looking at one.
ghost use Rattle.std.specs.Prelude.{◌≡◌, ◌⊎◌, ◌+◌, ◌≤◌, ◌++◌, ℕ, List, [], length, take, false, None, IfOk, IfErr, IfSome, OnOk};
ghost use Rattle.std.specs.FinMap.{empty};
ghost use Rattle.ix_types.specs.Count.{counted};
ghost use Rattle.ix_dir.specs.declared.area.Area.TheVariants.{Records};
ghost use Rattle.ix_dir.specs.Crash.{standing};
ghost use Rattle.ix_dir.specs.Images.{Image, IsImage};
ghost use Rattle.ix_dir.specs.State.{counted_where};
ghost use Rattle.ix_dir.specs.WhatAChangeLeaves.{AddsTo, IfTold};
ghost use Rattle.ix_machine.specs.Run.{begun, IsSoundOpening};
ghost use Rattle.ix_opening.specs.AfterOpening.{MakesFront, opening_moves};
ghost use Rattle.ix_opening.specs.Fault.{open_failed, HasNotFallen};
ghost use Rattle.ix_opening.specs.Found.{opening_of, IsFound, Tells};
ghost use Rattle.ix_stops.specs.Prefixes.{CountsFrom};
ghost use Rattle.ix_library.specs.Opened.{BeginsWith, came_back, open_faulted};
ghost use Rattle.ix_library.specs.StandsFor.{HasSlots, StandsFor};

use crate::known::KnownStamps;
use crate::library::Library;
use ix_dir::Dir;
use ix_ledger::Ledger;
use ix_machine::Refused;
use ix_opening::{Found, OpenError, look, open};
use ix_shelf::Shelf;
use ix_types::{Naming, Seq};
use std::alloc::Global;

/// A library that was opened, and the unit files that were refused and removed.
#[derive(Drop)]
pub struct Started<D: Dir, N: Naming> {
    pub library: Library<D, N>,
    pub refused: Seq<Refused>,
}

/// Opens a store with so many lanes. After an error the directory comes back; its sound units are as before, and some refused files may be gone.
pub fn open_store<D: Dir, N: Naming + Drop>(
    alloc: Global,
    dir: D,
    naming: N,
    lanes: u32,
) -> Result<Started<D, N>, (OpenError, D)>
    ensures stands { IfOk result (λ started. IfSome (D.state dir).moves (λ m. StandsFor N.name_of (begun (opening_of N.name_of (standing m)) lanes) started.library.ledger.kept started.library.shelf started.library.known (D.state started.library.dir))) }
    ensures refused { IfOk result (λ started. IfSome (D.state dir).moves (λ m. started.refused ≡ (opening_of N.name_of (standing m)).refused)) }
    ensures events { IfOk result (λ started. started.library.ledger.events ≡ []) }
    ensures ready { IfOk result (λ started. HasSlots started.library.ledger.kept (D.state started.library.dir)) }
    ensures cause { IfErr result (λ e. (D.state e.1).faults ≡ counted_where (open_faulted e.0) (D.state dir).faults) }
    // Over each directory it begins with what opening finds of the files that were read; and no change of a record waits, and no stamps are known.
    ensures found { IfOk result (λ started. BeginsWith N.name_of (D.state dir).moves lanes started.refused started.library.ledger.kept) }
    ensures shelf { IfOk result (λ started. started.library.shelf.unsynced ≡ false) }
    ensures known { IfOk result (λ started. (started.library.known.current ≡ empty) × (started.library.known.import ≡ None)) }

    // The moves, and how far they came where it failed. A run counts from their end.
    ensures moves { IfOk result (λ started. IfTold (D.state dir).moves (D.state started.library.dir).moves (λ before now. now ≡ before ++ opening_moves N.name_of before)) }
    ensures front { MakesFront N.name_of (D.state dir).moves (came_back result (λ started. D.state started.library.dir) (λ e. D.state e.1)).moves }
    ensures added { AddsTo (D.state dir).moves (came_back result (λ started. D.state started.library.dir) (λ e. D.state e.1)).moves }
    ensures counts { IfOk result (λ started. IfTold (D.state dir).moves (D.state started.library.dir).moves (λ before now. CountsFrom (length now) (length (begun (opening_of N.name_of (standing before)) lanes).publications) (begun (opening_of N.name_of (standing before)) lanes).publications now)) }

    // What is left, wherever it stopped: the records and the sound units; and each image from the second sync on has these.
    ensures records { IfTold (D.state dir).moves (came_back result (λ started. D.state started.library.dir) (λ e. D.state e.1)).moves (λ before now. standing now Records ≡ standing before Records) }
    ensures kept { IfTold (D.state dir).moves (came_back result (λ started. D.state started.library.dir) (λ e. D.state e.1)).moves (λ before now. (opening_of N.name_of (standing now)).units ≡ (opening_of N.name_of (standing before)).units) }
    ensures images { IfTold (D.state dir).moves (came_back result (λ started. D.state started.library.dir) (λ e. D.state e.1)).moves (λ before now. (moment : ℕ) (image : Image) → length before + 2 ≤ moment → moment ≤ length now → IsImage (take moment now) image → (opening_of N.name_of image).units ≡ (opening_of N.name_of (standing before)).units) }
    ensures early { IfTold (D.state dir).moves (came_back result (λ started. D.state started.library.dir) (λ e. D.state e.1)).moves (λ before now. (moment : ℕ) (image : Image) → length before ≤ moment → moment ≤ length before + 2 → IsImage (take moment now) image → IsImage before image) }
    ensures end_refused { IfOk result (λ started. IfTold (D.state dir).moves (D.state started.library.dir).moves (λ before now. (image : Image) → IsImage now image → (opening_of N.name_of image).refused ≡ [])) }

    // Counts alone change beside the moves. A library comes from one list, which is made behind both syncs.
    ensures state { IfOk result (λ started. D.state started.library.dir ≡ record (D.state dir) { moves = (D.state started.library.dir).moves; spare = (D.state started.library.dir).spare; listings = counted (D.state dir).listings; finds = (D.state started.library.dir).finds }) }
    ensures failed { IfErr result (λ e. D.state e.1 ≡ record (D.state dir) { moves = (D.state e.1).moves; spare = (D.state e.1).spare; faults = counted_where (open_faulted e.0) (D.state dir).faults; listings = (D.state e.1).listings; finds = (D.state e.1).finds }) }
    ensures once { ((came_back result (λ started. D.state started.library.dir) (λ e. D.state e.1)).listings ≡ (D.state dir).listings) ⊎ ((came_back result (λ started. D.state started.library.dir) (λ e. D.state e.1)).listings ≡ counted (D.state dir).listings) }
    ensures behind { ((came_back result (λ started. D.state started.library.dir) (λ e. D.state e.1)).listings ≡ (D.state dir).listings) ⊎ IfTold (D.state dir).moves (came_back result (λ started. D.state started.library.dir) (λ e. D.state e.1)).moves (λ before now. length before + 2 ≤ length now) }
    ensures finds { HasNotFallen (D.state dir).finds (came_back result (λ started. D.state started.library.dir) (λ e. D.state e.1)).finds }
{
    ix_opening::laws::found_names_rise();
    ix_ledger::laws::each_step_is_the_machines();
    ix_changes::laws::an_opening_is_held();
    ix_cabinet::laws::stamps_are_those_of_files();
    ix_dir::laws::contents_have_bytes();
    ix_stops::steps::an_opening_begins();
    ix_machine::laws::opening_lists_what_is_judged();
    let mut dir = dir;
    let found = match open(alloc, &mut dir, &naming) {
        Ok(found) => found,
        Err(error) => return Err((error, dir)),
    };
    match Ledger::open(alloc, found.units.as_slice(), lanes) {
        Ok(ledger) => Ok(Started {
            library: Library {
                dir,
                naming,
                shelf: Shelf::new(),
                ledger,
                known: KnownStamps::none(alloc),
            },
            refused: found.refused,
        }),
        Err(_wanting) => Err((OpenError::Memory, dir)),
    }
}

/// What opening a store would find, by reading alone: the sound units and the refused files. Nothing of the directory changes but counts.
pub fn check_store<D: Dir, N: Naming>(
    alloc: Global,
    dir: &mut D,
    naming: &N,
) -> Result<Found, OpenError>
    ensures found { IfOk result (λ found. IfSome (D.state dir.old).moves (λ m. Tells found (opening_of N.name_of (standing m)))) }
    ensures sound { OnOk result (IfSome (D.state dir.old).moves (λ m. IsSoundOpening N.name_of (opening_of N.name_of (standing m)))) }
    ensures read { IfOk result (IsFound N.name_of (D.state dir.old).moves) }
    ensures moves { (D.state dir.new).moves ≡ (D.state dir.old).moves }
    ensures cause { IfErr result (λ e. (D.state dir.new).faults ≡ counted_where (open_faulted e) (D.state dir.old).faults) }
    // Three counts alone change. An answer comes from one list.
    ensures state { D.state dir.new ≡ record (D.state dir.old) { faults = counted_where (open_failed result) (D.state dir.old).faults; listings = (D.state dir.new).listings; finds = (D.state dir.new).finds } }
    ensures listed { OnOk result ((D.state dir.new).listings ≡ counted (D.state dir.old).listings) }
    ensures once { ((D.state dir.new).listings ≡ (D.state dir.old).listings) ⊎ ((D.state dir.new).listings ≡ counted (D.state dir.old).listings) }
    ensures finds { HasNotFallen (D.state dir.old).finds (D.state dir.new).finds }
{
    look(alloc, dir, naming)
}
