//! What follows for a caller of what the library keeps. A caller's proof gets a law by calling its function, which does nothing.
ghost use Rattle.std.specs.Prelude.{◌≡◌, ℕ, List, Option, Some, true, IsSome};
ghost use Rattle.std.specs.List.{AllByRecursion};
ghost use Rattle.ix_dir.specs.declared.moves.Move.{Move};
ghost use Rattle.ix_dir.specs.WhatAChangeLeaves.{AddsTo, IfTold};
ghost use Rattle.ix_unit.specs.declared.value.RecordDep.{RecordDep};
ghost use Rattle.ix_model.specs.declared.publication.Publication.{Publication};
ghost use Rattle.ix_machine.specs.declared.event.Outcome.{Outcome};
ghost use Rattle.ix_machine.specs.Given.{Given};
ghost use Rattle.ix_machine.specs.Needs.{option_any};
ghost use Rattle.ix_machine.specs.State.{State};
ghost use Rattle.ix_machine.specs.Step.{Stepped, step};
ghost use Rattle.ix_guard.specs.Guarding.{Guarding, lease_of};
ghost use Rattle.ix_guard.specs.Protection.{leases_name, was_put};
ghost use Rattle.ix_ledger.specs.Effects.{noted, settled};
ghost use Rattle.ix_ledger.specs.Kept.{Kept};
ghost use Rattle.ix_stops.specs.Prefixes.{LeavesPrefixes};
ghost use Rattle.ix_library.specs.Conditions.{has_put_each};
ghost use Rattle.ix_library.specs.Growing.{Grows};

/// A put that is made notes its name under the lane's lease, and what was noted stays so through later puts and collects. Where each record of a unit was put under
/// the lease, the unit may be staged.
pub fn puts_are_noted()
    ensures noted { (kept : Kept) (lane : ℕ) (name : List ℕ) → option_any (leases_name name) (lease_of kept.guard lane) ≡ true → was_put (noted kept lane name).guard lane name ≡ true }
    ensures stays { (kept : Kept) (lane : ℕ) (name other : List ℕ) → was_put kept.guard lane other ≡ true → was_put (noted kept lane name).guard lane other ≡ true }
    ensures settled { (kept : Kept) (lane : ℕ) (other : List ℕ) → was_put (settled kept).guard lane other ≡ was_put kept.guard lane other }
    ensures leased { (guard : Guarding) (lane : ℕ) (name : List ℕ) → was_put guard lane name ≡ true → IsSome (lease_of guard lane) }
    ensures each { (guard : Guarding) (lane : ℕ) (deps : List RecordDep) → IsSome (lease_of guard lane) → AllByRecursion (λ dep. was_put guard lane dep.name ≡ true) deps → has_put_each deps (lease_of guard lane) ≡ true }
{}

/// Each step of the machine only adds publications; and what two steps leave on disk one after the other they leave together, so what is said of each step of a run is
/// said of the run.
pub fn steps_join()
    ensures grows { (name_of : List ℕ → List ℕ) (s : State) (lane : ℕ) (given : Given) (flag : Outcome) (stepped : Stepped) → step name_of s lane given flag ≡ Some stepped → Grows s stepped.state }
    ensures leaves { (name_of : List ℕ → List ℕ) (first : List Publication) (second third : State) (before between now : Option (List Move)) → Grows second third → AddsTo before between → AddsTo between now → IfTold before between (LeavesPrefixes name_of first second.publications) → IfTold between now (LeavesPrefixes name_of second.publications third.publications) → IfTold before now (LeavesPrefixes name_of first third.publications) }
{
    ix_stops::laws::steps_join();
}
