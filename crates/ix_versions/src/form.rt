//! Which queries are walks.
ghost use Rattle.std.specs.Prelude.{◌≡◌};
ghost use Rattle.ix_needs.specs.Premises.{is_plain};

use ix_types::Query;

/// Whether a query is no walk.
pub(crate) fn is_plain(query: &Query) -> bool
    ensures { result ≡ is_plain query.now }
{
    match query {
        Query::Incoming { .. }
        | Query::Outgoing { .. }
        | Query::Supertypes { .. }
        | Query::Subtypes { .. } => false,
        Query::Def { .. }
        | Query::Refs { .. }
        | Query::Occ { .. }
        | Query::Rel { .. }
        | Query::Callers { .. }
        | Query::Overrides { .. }
        | Query::Name { .. }
        | Query::Pattern { .. }
        | Query::Symbols { .. }
        | Query::Mains { .. }
        | Query::Units { .. }
        | Query::Includes { .. }
        | Query::Includers { .. }
        | Query::Codegen { .. } => true,
    }
}
