//! The value of a record's plan.
ghost use Rattle.std.specs.Prelude.{◌≡◌, ◌<◌, ◌≤◌, ◌^◌, length, map, bit_or, IfOk};
ghost use Rattle.std.specs.Ordering.{is_lt};
ghost use Rattle.ix_types.specs.Row.{text_cmp};
ghost use Rattle.std.specs.List.{fold, filter};
ghost use Rattle.std.specs.List.Sorted.{IsSorted};
ghost use Rattle.ix_record.specs.Order.{symbol_cmp, relation_cmp, occurrence_cmp};
ghost use Rattle.ix_model.specs.SortedSet.{sorted_set};
ghost use Rattle.ix_plan.specs.Keeps.{HaveOwnUsrs};
ghost use Rattle.ix_jobs.specs.Made.{symbol_of, symbols_of, index_of, relation_of, joined_roles, occurrence_of, record_of};

use crate::sets::{by_usr, sorted};
use ix_plan::{OccurrencePlan, RecordPlan, RelationPlan, SymbolPlan};
use ix_record::{Occurrence, RecordValue, Relation, Symbol};
use ix_types::{Memory, Roles, Seq, Text};
use std::alloc::{AllocError, Global};

/// The value of a record's plan: its symbols by USR, and its occurrences sorted and without repeats, each with the roles of its relations.
#[tactic(auto, unfolding(crate::specs::Made::record_of))]
pub(crate) fn record_of(alloc: Global, plan: &RecordPlan) -> Result<RecordValue, Memory>
    requires own_usrs { HaveOwnUsrs plan.now.symbols }
    requires few { length plan.now.symbols < 2 ^ 32 }
    ensures { IfOk result (λ value. value ≡ record_of plan.now) }
{
    let symbols = symbols_of(alloc, plan.symbols.as_slice())?;
    let occurrences = occurrences_of(alloc, &symbols, plan.occurrences.as_slice())?;
    Ok(RecordValue {
        format: plan.format,
        symbols: Seq::of(symbols),
        occurrences: Seq::of(sorted(occurrences)),
    })
}

/// The symbols of a record, rising by USR.
fn symbols_of(alloc: Global, plans: &[SymbolPlan]) -> Result<Vec<Symbol>, Memory>
    requires { HaveOwnUsrs plans.now }
    ensures symbols { IfOk result (λ symbols. symbols.items ≡ symbols_of plans.now) }
    ensures rising { IfOk result (λ symbols. IsSorted symbol_cmp symbols.items) }
    ensures len { IfOk result (λ symbols. length symbols.items ≡ length plans.now) }
{
    let symbols = listed_symbols(alloc, plans)?;
    Ok(by_usr(symbols))
}

fn listed_symbols(alloc: Global, plans: &[SymbolPlan]) -> Result<Vec<Symbol>, Memory>
    ensures { IfOk result (λ symbols. symbols.items ≡ map symbol_of plans.now) }
{
    let mut symbols = Vec::new(alloc);
    for plan in plans {
        symbols.push(symbol_of(plan)?)?;
    }
    Ok(symbols)
}

fn symbol_of(plan: &SymbolPlan) -> Result<Symbol, AllocError>
    ensures { IfOk result (λ symbol. symbol ≡ symbol_of plan.now) }
{
    Ok(Symbol {
        kind: plan.kind,
        lang: plan.lang,
        props: plan.props,
        usr: plan.usr.clone()?,
        name: plan.name.clone()?,
        codegen: plan.codegen.clone()?,
    })
}

/// The occurrences over these symbols, in the plan's order.
fn occurrences_of(
    alloc: Global,
    symbols: &[Symbol],
    plans: &[OccurrencePlan],
) -> Result<Vec<Occurrence>, Memory>
    requires rising { IsSorted symbol_cmp symbols.now }
    requires few { length symbols.now < 2 ^ 32 }
    ensures { IfOk result (λ v. v.items ≡ map (occurrence_of symbols.now) plans.now) }
{
    let mut occurrences = Vec::new(alloc);
    for plan in plans {
        occurrences.push(occurrence_of(alloc, symbols, plan)?)?;
    }
    Ok(occurrences)
}

fn occurrence_of(
    alloc: Global,
    symbols: &[Symbol],
    plan: &OccurrencePlan,
) -> Result<Occurrence, Memory>
    requires rising { IsSorted symbol_cmp symbols.now }
    requires few { length symbols.now < 2 ^ 32 }
    ensures { IfOk result (λ occurrence. occurrence ≡ occurrence_of symbols.now plan.now) }
{
    let relations = relations_of(alloc, symbols, plan.relations.as_slice())?;
    Ok(Occurrence {
        line: plan.line,
        column: plan.col,
        symbol: index_of(symbols, &plan.usr),
        roles: joined_roles(plan.roles, plan.relations.as_slice()),
        relations: Seq::of(relations),
    })
}

/// The relations over these symbols, sorted and without repeats.
fn relations_of(
    alloc: Global,
    symbols: &[Symbol],
    plans: &[RelationPlan],
) -> Result<Vec<Relation>, Memory>
    requires rising { IsSorted symbol_cmp symbols.now }
    requires few { length symbols.now < 2 ^ 32 }
    ensures { IfOk result (λ v. v.items ≡ sorted_set relation_cmp (map (relation_of symbols.now) plans.now)) }
{
    Ok(sorted(listed_relations(alloc, symbols, plans)?))
}

fn listed_relations(
    alloc: Global,
    symbols: &[Symbol],
    plans: &[RelationPlan],
) -> Result<Vec<Relation>, Memory>
    requires rising { IsSorted symbol_cmp symbols.now }
    requires few { length symbols.now < 2 ^ 32 }
    ensures { IfOk result (λ v. v.items ≡ map (relation_of symbols.now) plans.now) }
{
    let mut relations = Vec::new(alloc);
    for plan in plans {
        relations.push(relation_of(symbols, plan))?;
    }
    Ok(relations)
}

fn relation_of(symbols: &[Symbol], plan: &RelationPlan) -> Relation
    requires rising { IsSorted symbol_cmp symbols.now }
    requires few { length symbols.now < 2 ^ 32 }
    ensures { result ≡ relation_of symbols.now plan.now }
{
    Relation {
        symbol: index_of(symbols, &plan.usr),
        roles: plan.roles,
    }
}

/// The index of the USR's symbol: as many symbols have a lesser one.
fn index_of(symbols: &[Symbol], usr: &Text) -> u32
    requires rising { IsSorted symbol_cmp symbols.now }
    requires few { length symbols.now < 2 ^ 32 }
    ensures { result ≡ index_of symbols.now usr.now }
{
    let place = lesser(symbols, usr);
    place as u32
}

/// How many symbols have a lesser USR.
fn lesser(symbols: &[Symbol], usr: &Text) -> usize
    requires { IsSorted symbol_cmp symbols.now }
    ensures count { result ≡ index_of symbols.now usr.now }
    ensures within { result ≤ length symbols.now }
{
    symbols.partition_point(
        |symbol: &Symbol| -> bool
            ensures { result ≡ is_lt (text_cmp symbol.now.usr usr.entry.now) }
        { symbol.usr.cmp(usr).is_lt() },
    )
}

/// The roles, with those of the relations.
fn joined_roles(first: Roles, relations: &[RelationPlan]) -> Roles
    ensures { result ≡ joined_roles first relations.now }
{
    let mut roles = first;
    for relation in relations {
        roles = either(roles, relation.roles);
    }
    roles
}

/// The roles that one of the two has.
fn either(first: Roles, second: Roles) -> Roles
    ensures { result ≡ bit_or first second }
{
    match Roles::new(first.bits() | second.bits()) {
        Some(roles) => roles,
        None => unreachable!(),
    }
}
