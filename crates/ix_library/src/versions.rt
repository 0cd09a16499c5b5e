//! What lanes hold.
ghost use Rattle.std.specs.Prelude.{◌≡◌, ◌<◌, ◌++◌, ◌∷◌, [], length, IfOk, OnOk, OnErr};
ghost use Rattle.ix_machine.specs.declared.event.Call.TheVariants as call;
ghost use Rattle.ix_machine.specs.declared.event.Outcome.TheVariants as outcome;
ghost use Rattle.ix_machine.specs.Given as given;
ghost use Rattle.ix_machine.specs.State.{State};
ghost use Rattle.ix_ledger.specs.Books.{event};
ghost use Rattle.ix_ledger.specs.Effects.{adopted, released};
ghost use Rattle.ix_library.specs.StandsFor.{HasSlots, StandsFor, Takes};

use crate::given::given;
use crate::library::Library;
use ix_dir::Dir;
use ix_types::{Memory, Naming};

impl<D: Dir, N: Naming> Library<D, N> {
    /// The lane holds the current version, whose mark is answered. After want of memory all is as before.
    pub fn adopt(&mut self, lane: u32) -> Result<u64, Memory>
        requires { lane < length self.old.ledger.kept.guard.leases }
        ensures step { (s : State) → StandsFor N.name_of s self.old.ledger.kept self.old.shelf self.old.known (D.state self.old.dir) → IfOk result (λ mark. Takes N.name_of s lane given.Adopt outcome.Done (outcome.At mark) (D.state self.old.dir) self.new.ledger.kept self.new.shelf self.new.known (D.state self.new.dir)) }
        ensures adopted { OnOk result (self.new.ledger.kept ≡ adopted self.old.ledger.kept lane) }
        ensures mark { IfOk result (λ mark. mark ≡ self.old.ledger.kept.current) }
        ensures event { IfOk result (λ mark. self.new.ledger.events ≡ self.old.ledger.events ++ event lane call.Adopt (outcome.At mark) ∷ []) }
        ensures kept { OnErr result (self.new.ledger.kept ≡ self.old.ledger.kept) }
        ensures events { OnErr result (self.new.ledger.events ≡ self.old.ledger.events) }
        ensures dir { D.state self.new.dir ≡ D.state self.old.dir }
        ensures shelf { self.new.shelf ≡ self.old.shelf }
        ensures known { self.new.known ≡ self.old.known }
        ensures again { (s : State) → StandsFor N.name_of s self.old.ledger.kept self.old.shelf self.old.known (D.state self.old.dir) → OnErr result (StandsFor N.name_of s self.new.ledger.kept self.new.shelf self.new.known (D.state self.new.dir)) }
        ensures ready { HasSlots self.old.ledger.kept (D.state self.old.dir) → HasSlots self.new.ledger.kept (D.state self.new.dir) }
    {
        ix_ledger::laws::each_step_is_the_machines();
        given();
        self.ledger.adopt(lane)
    }

    /// The lane holds nothing any more. After want of memory all is as before.
    pub fn release(&mut self, lane: u32) -> Result<(), Memory>
        requires { lane < length self.old.ledger.kept.guard.leases }
        ensures step { (s : State) → StandsFor N.name_of s self.old.ledger.kept self.old.shelf self.old.known (D.state self.old.dir) → OnOk result (Takes N.name_of s lane given.Release outcome.Done outcome.Done (D.state self.old.dir) self.new.ledger.kept self.new.shelf self.new.known (D.state self.new.dir)) }
        ensures released { OnOk result (self.new.ledger.kept ≡ released self.old.ledger.kept lane) }
        ensures event { OnOk result (self.new.ledger.events ≡ self.old.ledger.events ++ event lane call.Release outcome.Done ∷ []) }
        ensures kept { OnErr result (self.new.ledger.kept ≡ self.old.ledger.kept) }
        ensures events { OnErr result (self.new.ledger.events ≡ self.old.ledger.events) }
        ensures dir { D.state self.new.dir ≡ D.state self.old.dir }
        ensures shelf { self.new.shelf ≡ self.old.shelf }
        ensures known { self.new.known ≡ self.old.known }
        ensures again { (s : State) → StandsFor N.name_of s self.old.ledger.kept self.old.shelf self.old.known (D.state self.old.dir) → OnErr result (StandsFor N.name_of s self.new.ledger.kept self.new.shelf self.new.known (D.state self.new.dir)) }
        ensures ready { HasSlots self.old.ledger.kept (D.state self.old.dir) → HasSlots self.new.ledger.kept (D.state self.new.dir) }
    {
        ix_ledger::laws::each_step_is_the_machines();
        given();
        self.ledger.release(lane)
    }
}
