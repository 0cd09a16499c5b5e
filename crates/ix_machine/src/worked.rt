//! Runs worked by hand, computed on the definition of the step. The functions do nothing: their contracts are the outcomes.
ghost use Rattle.std.specs.Prelude.{◌≡◌, ◌∷◌, [], Some, None};
ghost use Rattle.ix_machine.specs.declared.event.Outcome.TheVariants.{Done, Written, Shared, Clash, Synced, Unsynced, NoUnit, At, Removed, Nothing, Fault, Lost, Damaged};
ghost use Rattle.ix_machine.specs.declared.event.Purpose.TheVariants.{Ask};
ghost use Rattle.ix_machine.specs.Given.{Adopt, Publish, Install, Collect, Scan, Load};
ghost use Rattle.ix_machine.specs.WorkedRows.{over_empty, over_one_unit, n, m, u, by, with_flag, spares_a_lease, spares_a_hold, spares_an_import, publishes_twice, spares_what_pends, collects_around_a_build, removes_around_a_build, lists_a_record_twice, puts_over_others, shares, installs_hold, removes_what_was_found, publishes_over_another, fails, installs_twice, spares_what_is_leased, lists_two_records};

/// Which records a collect spares: leased ones, those of the open import, of a version that is held, and of the units from before a
/// change that pends.
pub fn collects_spare_what_is_needed()
    ensures leased { over_empty spares_a_lease ≡ Some (Done ∷ Written ∷ Nothing ∷ Done ∷ Synced ∷ []) }
    ensures leased_alone { over_empty spares_what_is_leased ≡ Some (Done ∷ Written ∷ Fault ∷ Done ∷ Nothing ∷ Fault ∷ Removed n ∷ []) }
    ensures held { over_empty spares_a_hold ≡ Some (Done ∷ Written ∷ Done ∷ Synced ∷ At 1 ∷ Done ∷ At 1 ∷ At 1 ∷ Done ∷ Written ∷ Done ∷ Synced ∷ At 2 ∷ Done ∷ At 2 ∷ Nothing ∷ Nothing ∷ Done ∷ Done ∷ Removed n ∷ []) }
    ensures imported { over_empty spares_an_import ≡ Some (Done ∷ Written ∷ Done ∷ Synced ∷ At 1 ∷ Done ∷ Written ∷ Done ∷ Synced ∷ Nothing ∷ Done ∷ At 1 ∷ []) }
    ensures pending { over_empty spares_what_pends ≡ Some (Done ∷ Written ∷ Done ∷ Synced ∷ Done ∷ Written ∷ Done ∷ Unsynced ∷ Fault ∷ Removed n ∷ []) }
    ensures installed { over_empty installs_hold ≡ Some (Done ∷ Written ∷ Done ∷ Synced ∷ At 1 ∷ Done ∷ At 1 ∷ Done ∷ Written ∷ Done ∷ Synced ∷ At 2 ∷ Done ∷ At 2 ∷ Nothing ∷ Done ∷ Removed n ∷ []) }
    ensures found { over_one_unit removes_what_was_found ≡ Some (At 0 ∷ Nothing ∷ At 1 ∷ Synced ∷ Nothing ∷ At 2 ∷ Removed n ∷ []) }
    ensures published { over_empty collects_around_a_build ≡ Some (Nothing ∷ Done ∷ Written ∷ Done ∷ Synced ∷ Nothing ∷ []) }
    ensures twice { over_empty lists_a_record_twice ≡ Some (Done ∷ Written ∷ Done ∷ Synced ∷ Nothing ∷ Synced ∷ Removed n ∷ []) }
    ensures two_records { over_empty lists_two_records ≡ Some (Done ∷ Written ∷ Written ∷ Done ∷ Synced ∷ Nothing ∷ Synced ∷ Removed m ∷ Removed n ∷ Nothing ∷ []) }
{}

/// Publishes and removals, failures, and flags that no step allows.
pub fn calls_answer_as_worked()
    ensures unsynced { over_empty publishes_twice ≡ Some (Done ∷ Written ∷ Done ∷ Unsynced ∷ Done ∷ Shared ∷ Done ∷ Synced ∷ []) }
    ensures removes { over_empty removes_around_a_build ≡ Some (NoUnit ∷ Done ∷ Written ∷ Done ∷ Synced ∷ Synced ∷ NoUnit ∷ []) }
    ensures failed { over_empty fails ≡ Some (Done ∷ Fault ∷ Done ∷ Written ∷ Fault ∷ Removed n ∷ Fault ∷ Lost u ∷ At 0 ∷ Damaged n ∷ NoUnit ∷ Done ∷ At 0 ∷ []) }
    ensures over { over_empty puts_over_others ≡ Some (Done ∷ Written ∷ Done ∷ Clash ∷ Fault ∷ Done ∷ Done ∷ Clash ∷ Written ∷ Clash ∷ Done ∷ Written ∷ Done ∷ Synced ∷ Done ∷ Clash ∷ Synced ∷ Done ∷ Written ∷ []) }
    ensures shared { over_empty shares ≡ Some (Done ∷ Written ∷ Fault ∷ Done ∷ Shared ∷ Clash ∷ []) }
    ensures another { over_empty publishes_over_another ≡ Some (Done ∷ Written ∷ Done ∷ Synced ∷ Done ∷ Shared ∷ Done ∷ Clash ∷ NoUnit ∷ Synced ∷ []) }
    ensures unstaged { over_empty (by 0 Publish ∷ []) ≡ None }
    ensures unopened { over_empty (by 0 Install ∷ []) ≡ None }
    ensures installed_once { over_empty installs_twice ≡ None }
    ensures taken_over { over_empty (by 0 Scan ∷ by 1 Scan ∷ by 0 Install ∷ []) ≡ None }
    ensures other_name { over_empty (with_flag 0 (Load n Ask) (Lost m) ∷ []) ≡ None }
    ensures not_allowed { over_empty (with_flag 0 Adopt Fault ∷ []) ≡ None }
    ensures never_unsynced { over_empty (with_flag 0 Collect Unsynced ∷ []) ≡ None }
{}
