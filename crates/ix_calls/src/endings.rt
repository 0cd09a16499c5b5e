//! What a call that ended gives its lane.
ghost use Rattle.std.specs.Prelude.{◌≡◌, ℕ, List, Option, true, false, None, Some, IfOk, is_err};
ghost use Rattle.ix_dir.specs.declared.moves.Move.{Move};
ghost use Rattle.ix_machine.specs.declared.event.Call.{Call};
ghost use Rattle.ix_machine.specs.declared.event.Event.{Event};
ghost use Rattle.ix_library.specs.Endings.{with_event};
ghost use Rattle.ix_turns.specs.Ended.{call_failed, ending, is_missed};
ghost use Rattle.ix_calls.specs.Calling.{IsNoted, ended_as, let_go_as, outcome_of, turn_failed};

use ix_machine::Outcome;
use ix_seats::Made;
use ix_types::Memory;

/// The call ended so, and gave the lane nothing.
pub(crate) fn ended(outcome: Result<Outcome, Memory>) -> Result<Made, Memory>
    ensures is { result ≡ ended_as outcome }
    ensures failed { turn_failed result ≡ call_failed (ending outcome) }
    ensures err { is_err result ≡ is_err outcome }
    ensures noted { (earlier events : List Event) (lane : ℕ) (call : Call) → events ≡ with_event earlier lane call (ending outcome) → IfOk result (λ made. IsNoted earlier lane (Some made) events) }
    ensures missed { (moves : Option (List Move)) → IfOk outcome (λ how. is_missed how ≡ false) → IfOk result (λ made. is_missed (outcome_of made) ≡ true → moves ≡ None) }
{
    match outcome {
        Ok(outcome) => Ok(Made::Ended(outcome)),
        Err(wanting) => Err(wanting),
    }
}

/// The call ended so, and the lane holds nothing from now on.
pub(crate) fn let_go(outcome: Result<Outcome, Memory>) -> Result<Made, Memory>
    ensures is { result ≡ let_go_as outcome }
    ensures failed { turn_failed result ≡ call_failed (ending outcome) }
    ensures err { is_err result ≡ is_err outcome }
    ensures noted { (earlier events : List Event) (lane : ℕ) (call : Call) → events ≡ with_event earlier lane call (ending outcome) → IfOk result (λ made. IsNoted earlier lane (Some made) events) }
    ensures missed { (moves : Option (List Move)) → IfOk outcome (λ how. is_missed how ≡ false) → IfOk result (λ made. is_missed (outcome_of made) ≡ true → moves ≡ None) }
{
    match outcome {
        Ok(outcome) => Ok(Made::LetGo(outcome)),
        Err(wanting) => Err(wanting),
    }
}
