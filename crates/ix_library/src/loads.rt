//! Loads of records, and installs of what was scanned.
ghost use Rattle.std.specs.Prelude.{◌≡◌, ◌⊎◌, ◌<◌, ◌++◌, ◌∷◌, [], ℕ, List, length, true, Some, None, Err, option_map, IfOk, IfErr, IfSome, OnOk, OnErr};
ghost use Rattle.ix_types.specs.Count.{counted};
ghost use Rattle.ix_dir.specs.State.{counted_where};
ghost use Rattle.ix_shelf.specs.Answers.{load_failed, IsRecordOf};
ghost use Rattle.ix_machine.specs.declared.event.Call.TheVariants as call;
ghost use Rattle.ix_machine.specs.declared.event.Outcome.TheVariants as outcome;
ghost use Rattle.ix_machine.specs.Given as given;
ghost use Rattle.ix_machine.specs.Needs.{seen_at};
ghost use Rattle.ix_machine.specs.Run.{MayLoad};
ghost use Rattle.ix_machine.specs.State.{State, Import, held_by};
ghost use Rattle.ix_ledger.specs.Books.{event};
ghost use Rattle.ix_ledger.specs.Effects.{installed};
ghost use Rattle.ix_ledger.specs.Registered.{has_opened};
ghost use Rattle.ix_looks.specs.Values.{HasValue};
ghost use Rattle.ix_library.specs.Endings.{flag_for, with_event};
ghost use Rattle.ix_library.specs.LookEndings.{load_ending, load_leaves, load_knows};
ghost use Rattle.ix_library.specs.Looks.{MayLoadThere, stamps_installed};
ghost use Rattle.ix_library.specs.StandsFor.{HasSlots, StandsFor, Takes};

use crate::failures::end_failed_load;
use crate::given::given;
use crate::known::KnownStamps;
use crate::library::Library;
use ix_dir::Dir;
use ix_ledger::Ledger;
use ix_machine::Purpose;
use ix_record::RecordValue;
use ix_shelf::LoadError;
use ix_types::{FileName, Memory, Naming};
use std::alloc::Global;
use std::sync::Arc;

impl<D: Dir, N: Naming> Library<D, N> {
    /// Reads a record anew: for the open import, where that needs the record and the current version doesn't, or for an ask of the lane, where the
    /// version that it holds needs the record. A load for the import that fails closes it. After want of memory all is as before.
    pub fn load(
        &mut self,
        alloc: Global,
        lane: u32,
        name: FileName,
        purpose: Purpose,
    ) -> Result<Arc<RecordValue>, LoadError>
        requires { MayLoadThere N.name_of self.old.ledger.kept self.old.shelf self.old.known (D.state self.old.dir) lane name purpose }
        // Where the library stands for a state: the value is that which the units have for the name, at the mark of the open import or of the lane's hold.
        ensures imported { (s : State) (open_import : Import) → StandsFor N.name_of s self.old.ledger.kept self.old.shelf self.old.known (D.state self.old.dir) → MayLoad s lane name purpose → purpose ≡ Purpose.Import → s.import ≡ Some open_import → IfOk result (λ value. HasValue (seen_at s open_import.mark) name value.value) }
        ensures asked { (s : State) (mark : ℕ) → StandsFor N.name_of s self.old.ledger.kept self.old.shelf self.old.known (D.state self.old.dir) → MayLoad s lane name purpose → purpose ≡ Purpose.Ask → held_by s lane ≡ Some mark → IfOk result (λ value. HasValue (seen_at s mark) name value.value) }
        ensures step { (s : State) → StandsFor N.name_of s self.old.ledger.kept self.old.shelf self.old.known (D.state self.old.dir) → MayLoad s lane name purpose → IfSome (load_ending result) (λ how. Takes N.name_of s lane (given.Load name purpose) (flag_for how) how (D.state self.old.dir) self.new.ledger.kept self.new.shelf self.new.known (D.state self.new.dir)) }

        // Over each directory: the value is spelled by bytes of this name, which stand there where the moves are told.
        ensures record_of { IfOk result (λ value. IsRecordOf N.name_of name (D.state self.old.dir).moves value.value) }

        // What is kept, what is known and what happened.
        ensures event { self.new.ledger.events ≡ with_event self.old.ledger.events lane (call.Load name) (load_ending result) }
        ensures kept { self.new.ledger.kept ≡ load_leaves purpose result self.old.ledger.kept }
        ensures known { self.new.known ≡ load_knows purpose result self.old.known }

        // Two counts of the directory alone change. A value, and a file that is damaged, come from a file that was found.
        ensures dir { D.state self.new.dir ≡ record (D.state self.old.dir) { faults = counted_where (load_failed result) (D.state self.old.dir).faults; finds = (D.state self.new.dir).finds } }
        ensures read { OnOk result ((D.state self.new.dir).finds ≡ counted (D.state self.old.dir).finds) }
        ensures lost { (n : List ℕ) → result ≡ Err (LoadError.Lost n) → (n ≡ name) × ((D.state self.old.dir).moves ≡ None) × ((D.state self.new.dir).finds ≡ (D.state self.old.dir).finds) }
        ensures damaged { (n : List ℕ) → result ≡ Err (LoadError.Damaged n) → (n ≡ name) × ((D.state self.old.dir).moves ≡ None) × ((D.state self.new.dir).finds ≡ counted (D.state self.old.dir).finds) }
        ensures once { ((D.state self.new.dir).finds ≡ (D.state self.old.dir).finds) ⊎ ((D.state self.new.dir).finds ≡ counted (D.state self.old.dir).finds) }
        ensures shelf { self.new.shelf ≡ self.old.shelf }
        ensures again { (s : State) → StandsFor N.name_of s self.old.ledger.kept self.old.shelf self.old.known (D.state self.old.dir) → result ≡ Err LoadError.Memory → StandsFor N.name_of s self.new.ledger.kept self.new.shelf self.new.known (D.state self.new.dir) }
        ensures ready { HasSlots self.old.ledger.kept (D.state self.old.dir) → HasSlots self.new.ledger.kept (D.state self.new.dir) }
    {
        given();
        ix_ledger::laws::each_step_is_the_machines();
        ix_looks::laws::what_is_held_may_be_looked_at();
        room_for_load(&mut self.ledger)?;
        match ix_looks::load(alloc, &mut self.dir, &self.shelf, &self.naming, name) {
            Ok(value) => {
                self.ledger.load_made(lane, name);
                Ok(value)
            }
            Err(error) => {
                end_failed_load(
                    &mut self.ledger,
                    &mut self.known,
                    lane,
                    name,
                    purpose,
                    &error,
                );
                Err(error)
            }
        }
    }

    /// Whether the lane opened the import that is open. Takes no memory.
    pub fn has_import(&self, lane: u32) -> bool
        ensures { result ≡ has_opened self.now.ledger.kept lane }
    {
        match self.ledger.import() {
            Some(open_import) => open_import.lane == lane,
            None => false,
        }
    }

    /// The open import becomes the current version, whose mark is answered, and the lane, which opened it, holds it. After want of memory all is as
    /// before.
    pub fn install(&mut self, lane: u32) -> Result<u64, Memory>
        requires lane { lane < length self.old.ledger.kept.guard.leases }
        requires own { has_opened self.old.ledger.kept lane ≡ true }
        ensures step { (s : State) → StandsFor N.name_of s self.old.ledger.kept self.old.shelf self.old.known (D.state self.old.dir) → IfOk result (λ mark. Takes N.name_of s lane given.Install outcome.Done (outcome.At mark) (D.state self.old.dir) self.new.ledger.kept self.new.shelf self.new.known (D.state self.new.dir)) }
        ensures installed { OnOk result (self.new.ledger.kept ≡ installed self.old.ledger.kept lane) }
        ensures mark { IfOk result (λ mark. option_map (λ open_import. open_import.mark) self.old.ledger.kept.import ≡ Some mark) }
        ensures stamps { OnOk result (self.new.known ≡ stamps_installed self.old.known self.old.known.import) }
        ensures event { IfOk result (λ mark. self.new.ledger.events ≡ self.old.ledger.events ++ event lane call.Install (outcome.At mark) ∷ []) }
        ensures kept { OnErr result (self.new.ledger.kept ≡ self.old.ledger.kept) }
        ensures known { OnErr result (self.new.known ≡ self.old.known) }
        ensures events { OnErr result (self.new.ledger.events ≡ self.old.ledger.events) }
        ensures dir { D.state self.new.dir ≡ D.state self.old.dir }
        ensures shelf { self.new.shelf ≡ self.old.shelf }
        ensures again { (s : State) → StandsFor N.name_of s self.old.ledger.kept self.old.shelf self.old.known (D.state self.old.dir) → OnErr result (StandsFor N.name_of s self.new.ledger.kept self.new.shelf self.new.known (D.state self.new.dir)) }
        ensures ready { HasSlots self.old.ledger.kept (D.state self.old.dir) → HasSlots self.new.ledger.kept (D.state self.new.dir) }
    {
        given();
        ix_ledger::laws::each_step_is_the_machines();
        let mark = self.ledger.install(lane)?;
        install_stamps(&mut self.known);
        Ok(mark)
    }
}

/// Room for the event of a load. Of the ledger nothing else changes.
fn room_for_load(ledger: &mut Ledger) -> Result<(), LoadError>
    ensures room { OnOk result (ledger.new.has_room ≡ true) }
    ensures same { ledger.new ≡ record ledger.old { has_room = ledger.new.has_room } }
    ensures wanting { IfErr result (λ e. e ≡ LoadError.Memory) }
{
    if ledger.reserve().is_err() {
        return Err(LoadError::Memory);
    }
    Ok(())
}

/// The stamps that are known for the import are those of the current version from now on. Takes no memory.
fn install_stamps(known: &mut KnownStamps)
    ensures { known.new ≡ stamps_installed known.old known.old.import }
{
    if let Some(stamps) = known.import.take() {
        known.current = stamps;
    }
}
