//! What a query needs and answers over a version.
ghost use Rattle.std.specs.Prelude.{◌≡◌, IfOk};
ghost use Rattle.ix_model.specs.Units.{Units};
ghost use Rattle.ix_answers.specs.Answers.{answer};
ghost use Rattle.ix_answers.specs.Needs.{next_need};
ghost use Rattle.ix_lookups.specs.Loaded.{loaded_names};
ghost use Rattle.ix_needs.specs.Premises.{Holds, AreNeedsLoaded};
ghost use Rattle.ix_outline.specs.Known.{AreTables};

use crate::form::is_plain;
use ix_lookups::Bodies;
use ix_tables::Version;
use ix_types::{FileName, Memory, Query, Row, Seq};
use std::alloc::Global;

/// The record to load next: the least that the query needs over the version's units and that isn't loaded, for a walk that of the first level that lacks
/// one. None exactly where none is lacking. Reads no file.
pub fn next_need(
    alloc: Global,
    query: &Query,
    version: &Version,
    bodies: &Bodies,
) -> Result<Option<FileName>, Memory>
    ensures { IfOk result (λ name. (units : Units) → AreTables units version.now.tables → Holds units bodies.now → name ≡ next_need query.now units (loaded_names bodies.now)) }
{
    version.tables.find_what_is_there();
    if is_plain(query) {
        ix_query::next_need(alloc, query, &version.tables, bodies)
    } else {
        ix_hierarchy::next_need(alloc, query, &version.tables, bodies)
    }
}

/// The answer, sorted and without repeats: where all that the query needs is loaded, that over all rows of all of the version's units. Reads no file.
pub fn answer(
    alloc: Global,
    query: &Query,
    version: &Version,
    bodies: &Bodies,
) -> Result<Seq<Row>, Memory>
    ensures { IfOk result (λ rows. (units : Units) → AreTables units version.now.tables → Holds units bodies.now → AreNeedsLoaded query.now units bodies.now
        → rows ≡ answer query.now units) }
{
    version.tables.find_what_is_there();
    if is_plain(query) {
        ix_query::answer(alloc, query, &version.tables, bodies)
    } else {
        ix_hierarchy::answer(alloc, query, &version.tables, bodies)
    }
}
