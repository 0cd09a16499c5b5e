//! Laws of the definitions, each the contract of a function that does nothing.
ghost use Rattle.std.specs.Prelude.{◌≡◌, ℕ, List, true, false, Some, IfSome, option_map};
ghost use Rattle.ix_types.specs.declared.row.Query.{Query};
ghost use Rattle.ix_model.specs.Units.{Units};
ghost use Rattle.ix_machine.specs.Given as given;
ghost use Rattle.ix_machine.specs.declared.event.Call.{Call};
ghost use Rattle.ix_machine.specs.declared.event.Call.TheVariants as call;
ghost use Rattle.ix_machine.specs.declared.event.Event.{Event};
ghost use Rattle.ix_machine.specs.declared.event.Outcome.{Outcome};
ghost use Rattle.ix_machine.specs.declared.event.Outcome.TheVariants.{Done};
ghost use Rattle.ix_machine.specs.declared.event.Purpose.TheVariants as purpose;
ghost use Rattle.ix_lanes.specs.Calls as turn;
ghost use Rattle.ix_lanes.specs.Calls.{next_call, next_turn};
ghost use Rattle.ix_lanes.specs.Progress.{Progress, is_asking, noted, settled, told, with_loaded};
ghost use Rattle.ix_machine.specs.Outcomes.{is_done};
ghost use Rattle.ix_seats.specs.Made.{IsGiven};
ghost use Rattle.ix_seats.specs.Seated.{Seated};
ghost use Rattle.ix_seats.specs.Seats.{IsSeat, lacks};

/// What a lane in its seat has, lacks and answers depends on the units at the mark that it holds, and on no others: more may be published meanwhile.
pub fn seats_see_the_mark_held()
    ensures seat { (seen other : ℕ → Units) (seat : Seated) → IfSome seat.lane.progress.held (λ mark. seen mark ≡ other mark) → IsSeat seen seat → IsSeat other seat }
    ensures lacks { (seen other : ℕ → Units) (p : Progress) → IfSome p.held (λ mark. seen mark ≡ other mark) → lacks seen p ≡ lacks other p }
    ensures settled { (seen other : ℕ → Units) (p : Progress) → IfSome p.held (λ mark. seen mark ≡ other mark) → settled seen p ≡ settled other p }
{}

/// The record that an ask lacks is the one that the lane loads next; where it lacks none the lane makes no call.
pub fn lacking_records_are_loaded_next()
    ensures { (seen : ℕ → Units) (current : ℕ) (p : Progress) → is_asking p ≡ true → next_call seen current p ≡ option_map (λ name. given.Load name purpose.Ask) (lacks seen p) }
{}

/// How a lane is told of its call is how the call's event takes it on: a load that gave its record to an ask loads it, and any other event is told by its outcome.
pub fn calls_take_lanes_on()
    ensures loaded { (lane : ℕ) (name : List ℕ) (p : Progress) → is_asking p ≡ true → told Done (noted (record { lane = lane; call = call.Load name; outcome = Done }) p) ≡ with_loaded name p }
    ensures failed { (event : Event) (p : Progress) → is_done event.outcome ≡ false → told event.outcome (noted event p) ≡ told event.outcome p }
    ensures others { (event : Event) (p : Progress) → is_asking p ≡ false → told event.outcome (noted event p) ≡ told event.outcome p }
{}
