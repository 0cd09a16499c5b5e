//! An ask of a version that is held.
ghost use Rattle.std.specs.Prelude.{◌≡◌, Some, None, IfOk, IfSome};
ghost use Rattle.ix_model.specs.Units.{Units};
ghost use Rattle.ix_lookups.specs.Found.{found_in};
ghost use Rattle.ix_needs.specs.Premises.{Holds};
ghost use Rattle.ix_outline.specs.Known.{AreTables};
ghost use Rattle.ix_asking.specs.Open.{IsOpen, IsSafe};
ghost use Rattle.ix_held.specs.Next.{IsNext, IsSafeNext};

use ix_asking::OpenAsk;
use ix_lookups::Bodies;
use ix_tables::Version;
use ix_types::{FileName, Memory, Query, Row, Seq};
use std::alloc::Global;

/// What an ask of a held version comes to.
#[derive(Drop)]
pub enum Next {
    /// It lacks this record, and stays open.
    Lacks(FileName, OpenAsk),
    /// It is answered by these rows.
    Rows(Seq<Row>),
}

/// What an ask of a held version comes to: the next record to load, or its answer over the units of the version. It is opened where it isn't; one that is open
/// keeps its place.
pub fn ask(
    alloc: Global,
    query: &Query,
    version: &Version,
    bodies: &Bodies,
    opened: Option<OpenAsk>,
) -> Result<Next, Memory>
    requires { IfSome opened (IsSafe query.now bodies.now) }
    ensures next { (units : Units) → AreTables units version.now.tables → Holds units bodies.now → IfSome opened (IsOpen query.now units bodies.now) → IfOk result (IsNext query.now units bodies.now) }
    ensures safe { IfOk result (IsSafeNext query.now bodies.now) }
{
    match opened {
        Some(opened) => go_on(alloc, query, version, bodies, opened),
        None => {
            version.tables.find_what_is_there();
            let opened = OpenAsk::open(alloc, query, &version.tables)?;
            go_on(alloc, query, version, bodies, opened)
        }
    }
}

/// What an open ask comes to.
fn go_on(
    alloc: Global,
    query: &Query,
    version: &Version,
    bodies: &Bodies,
    opened: OpenAsk,
) -> Result<Next, Memory>
    requires { IsSafe query.now bodies.now opened }
    ensures next { (units : Units) → AreTables units version.now.tables → Holds units bodies.now → IsOpen query.now units bodies.now opened → IfOk result (IsNext query.now units bodies.now) }
    ensures safe { IfOk result (IsSafeNext query.now bodies.now) }
{
    version.tables.find_what_is_there();
    let mut opened = opened;
    match opened.next_need(alloc, &version.tables, bodies)? {
        Some(name) => Ok(Next::Lacks(name, opened)),
        None => {
            let rows = opened.answer(alloc, query, &version.tables, bodies)?;
            Ok(Next::Rows(rows))
        }
    }
}
