//! What the proofs of this crate take from the crates below.
ghost use Rattle.ix_library.specs.Given.{Laws};

/// Laws of unit files and of publications.
pub(crate) fn given()
    ensures { Laws }
{
    ix_model::laws::the_latest_publication_stands();
    ix_changes::laws::a_step_without_moves_holds();
    ix_changes::laws::stamps_are_of_units();
}
