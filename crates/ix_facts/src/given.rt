//! What the proofs of this crate take from the crates below.
ghost use Rattle.ix_facts.specs.Given.{DiskLaws, GuardLaws, LedgerLaws, StepLaws};

/// Laws of files, of what a crash leaves, and of the spellings of units.
pub(crate) fn given_of_disk()
    ensures { DiskLaws }
{
    ix_dir::laws::contents_have_bytes();
    ix_dir::laws::settled_area_leaves_what_stands();
    ix_cabinet::laws::stamps_are_those_of_files();
    ix_unit::laws::one_spelling();
    ix_unit::laws::one_value();
}

/// Laws of need lists and leases.
pub(crate) fn given_of_guard()
    ensures { GuardLaws }
{
    ix_guard::laws::need_lists_are_exact();
    ix_guard::laws::the_guard_agrees_with_the_machine();
}

/// Laws of steps of the machine and of what they leave on disk.
pub(crate) fn given_of_steps()
    ensures { StepLaws }
{
    ix_changes::laws::a_step_without_moves_holds();
    ix_library::laws::steps_join();
    ix_machine::laws::acknowledged_changes_are_synced();
}

/// Laws of what a ledger keeps of the state behind a step.
pub(crate) fn given_of_ledger()
    ensures { LedgerLaws }
{
    ix_ledger::laws::the_ledger_follows_the_machine();
}
