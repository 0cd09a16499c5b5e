//! Laws of the definitions, each the contract of a function that does nothing.
ghost use Rattle.std.specs.Prelude.{◌≡◌, ◌⊎◌, List, true, false};
ghost use Rattle.std.specs.List.{list_any};
ghost use Rattle.ix_machine.specs.declared.event.Event.{Event};
ghost use Rattle.ix_turns.specs.Ended.{is_missed};
ghost use Rattle.ix_counts.specs.Counting.{is_failure};
ghost use Rattle.ix_plain.specs.declared.ending.Ending.{Ending};
ghost use Rattle.ix_plain.specs.Ending.{MayEnd, after_events, is_refused};

/// A refusal that the bytes decide stands, or memory was wanting. Bytes that are a script are never refused.
pub fn refusals_have_their_cause()
    ensures stands { (decided ending : Ending) → is_refused decided ≡ true → MayEnd decided ending → (ending ≡ decided) ⊎ (ending ≡ Ending.Memory) }
    ensures script { (ending : Ending) → MayEnd Ending.Done ending → is_refused ending ≡ false }
{}

/// What the events say where a text was written whole.
pub fn events_have_their_ending()
    ensures done { (events : List Event) → after_events events ≡ Ending.Done → (list_any (λ event. is_missed event.outcome) events ≡ false) × (list_any (λ event. is_failure event.outcome) events ≡ false) }
    ensures fault { (events : List Event) → after_events events ≡ Ending.DirFault → (list_any (λ event. is_missed event.outcome) events ≡ false) × (list_any (λ event. is_failure event.outcome) events ≡ true) }
    ensures damaged { (events : List Event) → after_events events ≡ Ending.StoreDamaged → list_any (λ event. is_missed event.outcome) events ≡ true }
{}
