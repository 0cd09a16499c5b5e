//! An open walk, which keeps its level and its place among the records that the level needs.
ghost use Rattle.std.specs.Prelude.{◌≡◌, ◌≤◌, ◌<◌, ◌+◌, ◌^◌, ◌⊎◌, ℕ, List, [], true, false, map, take, slice_get, Some, None, IfOk, OnOk, OnErr};
ghost use Rattle.ix_types.specs.declared.row.Query.{Query};
ghost use Rattle.ix_types.specs.declared.row.Row.TheVariants.{Edge};
ghost use Rattle.ix_types.specs.Row.{edge_cmp};
ghost use Rattle.ix_model.specs.SortedSet.{sorted_set};
ghost use Rattle.ix_model.specs.Units.{Units};
ghost use Rattle.ix_answers.specs.Answers.{answer};
ghost use Rattle.ix_answers.specs.Lookups.{is_among};
ghost use Rattle.ix_answers.specs.Needs.{next_need, lacking_of};
ghost use Rattle.ix_answers.specs.Rising.{AreLoaded};
ghost use Rattle.ix_lookups.specs.Found.{found_in};
ghost use Rattle.ix_lookups.specs.Loaded.{Loaded, loaded_names};
ghost use Rattle.ix_needs.specs.Premises.{is_plain, Holds};
ghost use Rattle.ix_levels.specs.Levels.{names_while, level_edges, fresh_ends};
ghost use Rattle.ix_levels.specs.Trail.{Trail, walk_of, start_of, depth_of, is_met, IsOpenOver, IsDone, IsAtStart, IsNextLevel, IsSameLevel, IsFurther, next_edges};

use crate::edges::append_level;
use crate::level::{first_lacking, fresh_ends, names_while};
use crate::seen::{add_level, is_empty, set_of_one};
use crate::sets::set_of_edges;
use ix_answers::Walk;
use ix_lookups::{Bodies, Lookups};
use ix_types::{EdgeRow, FileName, Memory, Query, Row, Seq, Text};
use std::alloc::{AllocError, Global};
use std::collections::BTreeSet;
use std::marker::Model;

/// A walk on its way: the level where it stands, the records that this level needs with a place among them, and the edges so far.
#[derive(Drop)]
pub struct OpenWalk {
    walk: Walk,
    number: u32,
    left: u32,
    seen: BTreeSet<Text>,
    level: BTreeSet<Text>,
    needed: Vec<FileName>,
    place: usize,
    edges: Vec<EdgeRow>,
}

impl Model for OpenWalk {
    ghost use Rattle.std.specs.Prelude.{◌<◌, ◌+◌, ◌^◌};
    ghost use Rattle.ix_levels.specs.Trail.{Trail};

    ghost Value = { Trail };

    ghost view = { λ w. record { walk = w.walk; number = w.number; left = w.left; seen = w.seen.keys; level = w.level.keys; needed = w.needed.items; place = w.place; edges = w.edges.items } };

    ghost invariant = { λ w. w.number + w.left < 2 ^ 32 };
}

impl OpenWalk {
    /// Opens a walk at its start. It makes the list of what the start needs, and no other.
    pub fn open<L: Lookups>(alloc: Global, query: &Query, lookups: &L) -> Result<OpenWalk, Memory>
        requires { is_plain query.now ≡ false }
        ensures { IfOk result (λ walk. (units : Units) (bodies : Loaded) → L.found lookups.now ≡ found_in units → IsOpenOver query.now units bodies walk) }
    {
        ix_levels::laws::walks_open();
        OpenWalk::of(alloc, query, lookups)
    }

    /// The start of a query's walk.
    fn of<L: Lookups>(alloc: Global, query: &Query, lookups: &L) -> Result<OpenWalk, Memory>
        requires { is_plain query.now ≡ false }
        ensures { IfOk result (λ walk. IsAtStart (walk_of query.now) (start_of query.now) (depth_of query.now) (L.found lookups.now) walk) }
    {
        match query {
            Query::Incoming { usr, depth } => {
                OpenWalk::at_start(alloc, Walk::Incoming, usr, *depth, lookups)
            }
            Query::Outgoing { usr, depth } => {
                OpenWalk::at_start(alloc, Walk::Outgoing, usr, *depth, lookups)
            }
            Query::Supertypes { usr, depth } => {
                OpenWalk::at_start(alloc, Walk::Supertypes, usr, *depth, lookups)
            }
            Query::Subtypes { usr, depth } => {
                OpenWalk::at_start(alloc, Walk::Subtypes, usr, *depth, lookups)
            }
            Query::Def { .. }
            | Query::Refs { .. }
            | Query::Occ { .. }
            | Query::Rel { .. }
            | Query::Callers { .. }
            | Query::Overrides { .. }
            | Query::Name { .. }
            | Query::Pattern { .. }
            | Query::Symbols { .. }
            | Query::Mains { .. }
            | Query::Units { .. }
            | Query::Includes { .. }
            | Query::Includers { .. }
            | Query::Codegen { .. } => unreachable!(),
        }
    }

    /// A walk at its start.
    fn at_start<L: Lookups>(
        alloc: Global,
        walk: Walk,
        usr: &Text,
        depth: u32,
        lookups: &L,
    ) -> Result<OpenWalk, Memory>
        ensures { IfOk result (λ trail. IsAtStart walk usr.now depth (L.found lookups.now) trail) }
    {
        let level = set_of_one(alloc, usr)?;
        let needed = names_while(alloc, depth, walk, &level, lookups)?;
        Ok(OpenWalk {
            walk,
            number: 0,
            left: depth,
            seen: BTreeSet::new(alloc),
            level,
            needed,
            place: 0,
            edges: Vec::new(alloc),
        })
    }

    /// The least record that isn't loaded of the first level that lacks one; None exactly where none is lacking, and then the walk is done. It goes on to
    /// a next level once all that its level needs is loaded, and looks no record up again that it has passed. Its place moves to what is answered. It stays
    /// open, also after want of memory; then it may stand further on than before.
    pub fn next_need<L: Lookups>(
        &mut self,
        alloc: Global,
        lookups: &L,
        bodies: &Bodies,
    ) -> Result<Option<FileName>, Memory>
        ensures next { IfOk result (λ name. (query : Query) (units : Units) → L.found lookups.now ≡ found_in units → Holds units bodies.now → IsOpenOver query units bodies.now self.old
            → name ≡ next_need query units (loaded_names bodies.now)) }
        ensures open { (query : Query) (units : Units) → L.found lookups.now ≡ found_in units → Holds units bodies.now → IsOpenOver query units bodies.now self.old
            → IsOpenOver query units bodies.now self.new }
        ensures done { IfOk result (λ name. name ≡ None → IsDone self.new) }
        ensures place { IfOk result (λ name. slice_get self.new.needed self.new.place ≡ name) }
        ensures forward { IsFurther self.old self.new }
    {
        ix_levels::laws::what_a_level_lacks_comes_next();
        ix_levels::laws::walks_stay_open();
        ix_levels::laws::walks_go_on();
        while self.left > 0 {
            let name = self.lacking(bodies);
            if name.is_some() {
                return Ok(name);
            }
            if self.is_at_end() {
                return Ok(None);
            }
            self.go_on(alloc, lookups, bodies)?;
        }
        Ok(self.lacking(bodies))
    }

    /// Whether the level has no USR.
    fn is_at_end(&self) -> bool
        ensures { result ≡ true → self.now.level ≡ [] }
    {
        is_empty(&self.level)
    }

    /// What the level lacks first, from the place on; the place moves there.
    fn lacking(&mut self, bodies: &Bodies) -> Option<FileName>
        ensures same { self.new ≡ record self.old { place = self.new.place } }
        ensures lacking { AreLoaded (loaded_names bodies.now) (take self.old.place self.old.needed) → result ≡ lacking_of (loaded_names bodies.now) self.old.needed }
        ensures passed { AreLoaded (loaded_names bodies.now) (take self.old.place self.old.needed) → AreLoaded (loaded_names bodies.now) (take self.new.place self.new.needed) }
        ensures place { slice_get self.new.needed self.new.place ≡ result }
        ensures forward { self.old.place ≤ self.new.place }
    {
        self.place = first_lacking(&self.needed, self.place, bodies);
        name_at(&self.needed, self.place)
    }

    /// Goes a level further by what is loaded.
    fn go_on<L: Lookups>(
        &mut self,
        alloc: Global,
        lookups: &L,
        bodies: &Bodies,
    ) -> Result<(), Memory>
        requires { 0 < self.old.left }
        ensures further { OnOk result (IsNextLevel (L.found lookups.now) bodies.now self.old self.new) }
        ensures err { OnErr result (IsSameLevel self.old self.new) }
        ensures place { OnErr result (self.new.place ≡ self.old.place) }
    {
        add_level(&mut self.seen, &self.level)?;
        let mut edges = Vec::new(alloc);
        append_level(
            alloc,
            &mut edges,
            self.walk,
            self.number + 1,
            &self.level,
            &self.needed,
            lookups,
            bodies,
        )?;
        let level = fresh_ends(alloc, &self.seen, &edges)?;
        let needed = names_while(alloc, self.left - 1, self.walk, &level, lookups)?;
        self.edges.append(&mut edges)?;
        self.number += 1;
        self.left -= 1;
        self.level = level;
        self.needed = needed;
        self.place = 0;
        Ok(())
    }

    /// The answer of a walk that is done: its edges, sorted and without repeats.
    pub fn into_answer(self, alloc: Global) -> Result<Seq<Row>, Memory>
        ensures { IfOk result (λ rows. (query : Query) (units : Units) (bodies : Loaded) → IsOpenOver query units bodies self → IsDone self → rows ≡ answer query units) }
    {
        ix_levels::laws::walks_end_with_the_answer();
        let edges = set_of_edges(self.edges);
        Ok(Seq::of(as_rows(alloc, edges)?))
    }
}

/// The name at a place; None past the last.
fn name_at(names: &[FileName], place: usize) -> Option<FileName>
    ensures { result ≡ slice_get names.now place }
{
    names.get(place).copied()
}

fn as_rows(alloc: Global, edges: Vec<EdgeRow>) -> Result<Vec<Row>, AllocError>
    ensures { IfOk result (λ rows. rows.items ≡ map Edge edges.items) }
{
    edges.into_iter().map(|edge| Row::Edge(edge)).collect(alloc)
}
