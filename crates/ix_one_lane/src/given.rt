//! The laws of crates below that the laws here stand on.
ghost use Rattle.ix_one_lane.specs.Below.{Below};

/// All of them.
pub(crate) fn given()
    ensures { Below }
{
    ix_model::laws::the_latest_publication_stands();
    ix_machine::laws::calls_change_what_they_name();
    ix_machine::laws::a_publish_adds_what_is_staged();
    ix_lanes::laws::answers_are_those_to_the_asks();
    ix_replays::laws::runs_leave_no_call();
    ix_allowed::laws::accepted_scripts_are_ready();
    ix_allowed::laws::lanes_agree_with_the_state();
    ix_allowed::laws::runs_are_the_machines();
    ix_turn_order::laws::lanes_have_calls_while_they_have_tasks();
    ix_turn_order::laws::calls_are_steps();
}
