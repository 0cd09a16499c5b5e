//! Which occurrences a query chooses, before their rows are made.
ghost use Rattle.std.specs.Prelude.{◌≡◌, ◌&&◌, ◌||◌, Bool, false};
ghost use Rattle.std.specs.Option.{option_map_or};
ghost use Rattle.std.specs.List.{filter_map, list_any};
ghost use Rattle.std.specs.Str.{bytes_eq};
ghost use Rattle.ix_types.specs.Codes.{has_any};
ghost use Rattle.ix_types.specs.declared.code.TheConstants.Roles.{CALLED_BY};
ghost use Rattle.ix_model.specs.Answer.{is_with};
ghost use Rattle.ix_model.specs.Rows.{relation_row, row_with};
ghost use Rattle.ix_answers.specs.Answers.{is_related, is_called, is_declared_in};

use ix_record::{Occurrence, Relation, Symbol};
use ix_types::{Roles, Text};

/// A test of occurrences by a text and a mask of roles.
pub(crate) trait Choice {
    ghost use Rattle.std.specs.Prelude.{ℕ, List, Bool};
    ghost use Rattle.ix_types.specs.declared.row.OccRow.{OccRow};

    /// Whether a row is chosen.
    ghost passes: { List ℕ → ℕ → OccRow → Bool };

    /// Whether the row of an occurrence of a symbol would be chosen.
    fn chooses(
        key: &Text,
        mask: u32,
        path: &Text,
        symbols: &[Symbol],
        occurrence: &Occurrence,
        symbol: &Symbol,
    ) -> bool
        ensures { result ≡ passes key.now mask (row_with path.now symbols.now occurrence.now symbol.now) };
}

/// A choice that is the same under each path.
pub(crate) trait PathlessChoice: Choice {
    ghost use Rattle.std.specs.Prelude.{ℕ, List};

    /// Whether the row of an occurrence of a symbol would be chosen, whichever path it is under.
    fn chooses_anywhere(
        key: &Text,
        mask: u32,
        symbols: &[Symbol],
        occurrence: &Occurrence,
        symbol: &Symbol,
    ) -> bool
        ensures { (path : List ℕ) → result ≡ Self.passes key.now mask (row_with path symbols.now occurrence.now symbol.now) };
}

/// Of a USR, and has one of the roles.
pub(crate) struct WithRole;

impl Choice for WithRole {
    ghost passes = { is_with };

    fn chooses(
        key: &Text,
        mask: u32,
        _path: &Text,
        symbols: &[Symbol],
        occurrence: &Occurrence,
        symbol: &Symbol,
    ) -> bool {
        WithRole::chooses_anywhere(key, mask, symbols, occurrence, symbol)
    }
}

impl PathlessChoice for WithRole {
    fn chooses_anywhere(
        key: &Text,
        mask: u32,
        _symbols: &[Symbol],
        occurrence: &Occurrence,
        symbol: &Symbol,
    ) -> bool {
        // Roles tell most occurrences apart, at less cost than texts.
        if occurrence.roles.bits() & mask == 0 {
            return false;
        }
        symbol.usr == *key
    }
}

/// Of a USR, and something calls it there.
pub(crate) struct Called;

impl Choice for Called {
    ghost passes = { λ usr mask row. is_called usr row };

    fn chooses(
        key: &Text,
        mask: u32,
        _path: &Text,
        symbols: &[Symbol],
        occurrence: &Occurrence,
        symbol: &Symbol,
    ) -> bool {
        Called::chooses_anywhere(key, mask, symbols, occurrence, symbol)
    }
}

impl PathlessChoice for Called {
    fn chooses_anywhere(
        key: &Text,
        _mask: u32,
        symbols: &[Symbol],
        occurrence: &Occurrence,
        symbol: &Symbol,
    ) -> bool {
        symbol.usr == *key && has_caller(symbols, occurrence.relations.as_slice())
    }
}

/// With a relation to a USR that has one of the roles.
pub(crate) struct Related;

impl Choice for Related {
    ghost passes = { is_related };

    fn chooses(
        key: &Text,
        mask: u32,
        _path: &Text,
        symbols: &[Symbol],
        occurrence: &Occurrence,
        symbol: &Symbol,
    ) -> bool {
        Related::chooses_anywhere(key, mask, symbols, occurrence, symbol)
    }
}

impl PathlessChoice for Related {
    fn chooses_anywhere(
        key: &Text,
        mask: u32,
        symbols: &[Symbol],
        occurrence: &Occurrence,
        _symbol: &Symbol,
    ) -> bool {
        has_relation(symbols, occurrence.relations.as_slice(), key, mask)
    }
}

/// In a path, and defines or declares something there.
pub(crate) struct DeclaredIn;

impl Choice for DeclaredIn {
    ghost passes = { λ path mask row. is_declared_in path row };

    fn chooses(
        key: &Text,
        _mask: u32,
        path: &Text,
        _symbols: &[Symbol],
        occurrence: &Occurrence,
        _symbol: &Symbol,
    ) -> bool {
        *path == *key
            && (occurrence.roles.bits() & Roles::DECLARATION != 0
                || occurrence.roles.bits() & Roles::DEFINITION != 0)
    }
}

/// Whether one of the relations says that something calls the symbol.
fn has_caller(symbols: &[Symbol], relations: &[Relation]) -> bool
    ensures { result ≡ list_any (λ relation. has_any relation.roles CALLED_BY) (filter_map (relation_row symbols.now) relations.now) }
{
    any_caller(symbols, relations)
}

/// The same, relation by relation.
fn any_caller(symbols: &[Symbol], relations: &[Relation]) -> bool
    ensures { result ≡ list_any (λ relation. option_map_or (λ row. has_any row.roles CALLED_BY) (relation_row symbols.now relation) false) relations.now }
{
    relations
        .iter()
        .any(|relation| is_caller(symbols, relation))
}

/// Whether the relation is in the list, and says that something calls the symbol.
fn is_caller(symbols: &[Symbol], relation: &Relation) -> bool
    ensures { result ≡ option_map_or (λ row. has_any row.roles CALLED_BY) (relation_row symbols.now relation.now) false }
{
    match symbols.get(relation.symbol as usize) {
        Some(_) => relation.roles.bits() & Roles::CALLED_BY != 0,
        None => false,
    }
}

/// Whether one of the relations leads to the USR and has one of the roles.
fn has_relation(symbols: &[Symbol], relations: &[Relation], usr: &Text, mask: u32) -> bool
    ensures { result ≡ list_any (λ relation. bytes_eq relation.usr usr.now && has_any relation.roles mask) (filter_map (relation_row symbols.now) relations.now) }
{
    any_leads_to(symbols, relations, usr, mask)
}

/// The same, relation by relation.
fn any_leads_to(symbols: &[Symbol], relations: &[Relation], usr: &Text, mask: u32) -> bool
    ensures { result ≡ list_any (λ relation. option_map_or (λ row. bytes_eq row.usr usr.now && has_any row.roles mask) (relation_row symbols.now relation) false) relations.now }
{
    relations
        .iter()
        .any(|relation| leads_to(symbols, relation, usr, mask))
}

/// Whether the relation leads to the USR and has one of the roles.
fn leads_to(symbols: &[Symbol], relation: &Relation, usr: &Text, mask: u32) -> bool
    ensures { result ≡ option_map_or (λ row. bytes_eq row.usr usr.now && has_any row.roles mask) (relation_row symbols.now relation.now) false }
{
    match symbols.get(relation.symbol as usize) {
        Some(symbol) => symbol.usr == *usr && relation.roles.bits() & mask != 0,
        None => false,
    }
}
