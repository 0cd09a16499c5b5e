//! What a walk needs and answers.
ghost use Rattle.std.specs.Prelude.{◌≡◌, false, IfOk};
ghost use Rattle.ix_model.specs.Units.{Units};
ghost use Rattle.ix_answers.specs.Answers.{answer};
ghost use Rattle.ix_answers.specs.Needs.{next_need};
ghost use Rattle.ix_lookups.specs.Found.{found_in};
ghost use Rattle.ix_lookups.specs.Loaded.{loaded_names};
ghost use Rattle.ix_needs.specs.Premises.{is_plain, Holds, AreNeedsLoaded};

use crate::open_walk::OpenWalk;
use ix_lookups::{Bodies, Lookups};
use ix_types::{FileName, Memory, Query, Row, Seq};
use std::alloc::Global;

/// The least record that isn't loaded of the first level of a walk that lacks one; None exactly where none is lacking.
pub fn next_need<L: Lookups>(
    alloc: Global,
    query: &Query,
    lookups: &L,
    bodies: &Bodies,
) -> Result<Option<FileName>, Memory>
    requires { is_plain query.now ≡ false }
    ensures { IfOk result (λ name. (units : Units) → L.found lookups.now ≡ found_in units → Holds units bodies.now → name ≡ next_need query.now units (loaded_names bodies.now)) }
{
    let mut walk = OpenWalk::open(alloc, query, lookups)?;
    walk.next_need(alloc, lookups, bodies)
}

/// The answer of a walk: its edges, sorted and without repeats. Where the look-ups are those of some units, the bodies are of these and
/// all that is needed is loaded, it is the answer over all rows of all of the units. Reads no file.
pub fn answer<L: Lookups>(
    alloc: Global,
    query: &Query,
    lookups: &L,
    bodies: &Bodies,
) -> Result<Seq<Row>, Memory>
    requires { is_plain query.now ≡ false }
    ensures { IfOk result (λ rows. (units : Units) → L.found lookups.now ≡ found_in units → Holds units bodies.now → AreNeedsLoaded query.now units bodies.now
        → rows ≡ answer query.now units) }
{
    ix_answers::laws::the_next_need_is_that();
    let mut walk = OpenWalk::open(alloc, query, lookups)?;
    let _next = walk.next_need(alloc, lookups, bodies)?;
    walk.into_answer(alloc)
}
