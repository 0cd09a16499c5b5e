//! The symbols of a record, found by their USRs.
ghost use Rattle.std.specs.Prelude.{◌≡◌, [], Some, not, IfOk, OnOk};
ghost use Rattle.ix_plan.specs.Plans.{is_usr_of};
ghost use Rattle.ix_plan.specs.Usrs.{Keeps, KeepsNext, digest_of, has_key, is_at_place, is_kept};

use crate::plan::SymbolPlan;
use ix_types::Seq;
use std::alloc::{AllocError, Global};
use std::collections::{BTreeMap, BTreeSet};
use std::hash::{FoldHasher, Hasher};
use std::marker::Model;

/// How the USRs of some symbols are found.
#[derive(Drop)]
pub struct Usrs {
    /// The place of the first symbol whose USR has the digest.
    pub firsts: BTreeMap<u64, usize>,
    /// The USRs of the symbols that aren't the first of their digest.
    pub others: BTreeSet<Vec<u8>>,
}

/// The number by which a USR is looked for.
#[tactic(auto, unfolding(crate::specs::Usrs::digest_of))]
fn digest(usr: &[u8]) -> u64
    ensures { result ≡ digest_of usr.now }
{
    let mut hasher = FoldHasher::default();
    hasher.write(usr);
    hasher.finish()
}

/// Whether the symbol of a place has the USR.
fn is_first(symbols: &[SymbolPlan], place: usize, usr: &[u8]) -> bool
    ensures { result ≡ is_at_place symbols.now (Some place) usr.now }
{
    match symbols.get(place) {
        Some(symbol) => usr == symbol.usr.bytes(),
        None => false,
    }
}

/// Whether the USR is among those that aren't the first of their digest.
fn is_other(others: &BTreeSet<Vec<u8>>, usr: &[u8]) -> bool
    ensures { result ≡ has_key others.now.keys usr.now }
{
    others.contains(usr)
}

impl Usrs {
    /// Those of no symbols.
    pub fn new(alloc: Global) -> Usrs
        ensures { Keeps result.firsts result.others.keys [] }
    {
        Usrs {
            firsts: BTreeMap::new(alloc),
            others: BTreeSet::new(alloc),
        }
    }

    /// Whether one of the symbols has the USR.
    pub fn has(&self, symbols: &[SymbolPlan], usr: &[u8]) -> bool
        ensures { result ≡ is_kept self.now.firsts self.now.others.keys symbols.now usr.now }
    {
        let first = match self.firsts.get(&digest(usr)) {
            Some(place) => is_first(symbols, *place, usr),
            None => false,
        };
        first || is_other(&self.others, usr)
    }

    /// Keeps the USR of the symbol that comes next, and answers whether it is new.
    pub fn keep(
        &mut self,
        alloc: Global,
        symbols: &[SymbolPlan],
        usr: &[u8],
    ) -> Result<bool, AllocError>
        ensures new { Keeps self.old.firsts self.old.others.keys symbols.now → IfOk result (λ new. new ≡ not (is_usr_of symbols.now usr.now)) }
        ensures kept { Keeps self.old.firsts self.old.others.keys symbols.now → OnOk result (KeepsNext self.new.firsts self.new.others.keys symbols.now usr.now) }
    {
        let known = is_other(&self.others, usr);
        let digest = digest(usr);
        match self.firsts.insert(digest, symbols.len())? {
            None => Ok(!known),
            Some(first) => {
                self.firsts.insert(digest, first)?;
                self.others.insert(Vec::from_slice(alloc, usr)?)?;
                Ok(!(is_first(symbols, first, usr) || known))
            }
        }
    }
}

/// Some symbols, seen as their list.
#[derive(Drop)]
pub struct SymbolTable {
    symbols: Vec<SymbolPlan>,
    usrs: Usrs,
}

impl Model for SymbolTable {
    ghost use Rattle.std.specs.Prelude.{List};
    ghost use Rattle.ix_plan.specs.declared.plan.SymbolPlan.{SymbolPlan};
    ghost use Rattle.ix_plan.specs.Usrs.{Keeps};

    ghost Value = { List SymbolPlan };

    ghost view = { λ table. table.symbols.items };

    ghost invariant = { λ table. Keeps table.usrs.firsts table.usrs.others.keys table.symbols.items };
}

impl SymbolTable {
    /// Symbols, and how their USRs are found.
    pub fn of(symbols: Vec<SymbolPlan>, usrs: Usrs) -> SymbolTable
        requires { Keeps usrs.firsts usrs.others.keys symbols.items }
        ensures { result ≡ symbols.items }
    {
        SymbolTable { symbols, usrs }
    }

    /// Whether one of the symbols has this USR.
    pub fn has(&self, usr: &[u8]) -> bool
        ensures { result ≡ is_usr_of self.now usr.now }
    {
        self.usrs.has(self.symbols.as_slice(), usr)
    }

    /// The symbols in order.
    pub fn into_symbols(self) -> Seq<SymbolPlan>
        ensures { result ≡ self }
    {
        let SymbolTable { symbols, usrs: _ } = self;
        Seq::of(symbols)
    }
}
