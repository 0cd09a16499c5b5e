//! Laws of the definitions, each the contract of a function that does nothing.
ghost use Rattle.std.specs.Prelude.{◌≡◌, ◌↔◌, ◌<◌, ◌+◌, ℕ, false, List, map, take, Some, None, Contains};
ghost use Rattle.ix_types.specs.Row.{edge_cmp};
ghost use Rattle.ix_types.specs.declared.row.EdgeRow.{EdgeRow};
ghost use Rattle.ix_types.specs.declared.row.Row.TheVariants.{Edge};
ghost use Rattle.ix_model.specs.Rows.{rows};
ghost use Rattle.ix_model.specs.SortedSet.{sorted_set, IsSortedSetOf};
ghost use Rattle.ix_model.specs.Units.{Units};
ghost use Rattle.ix_answers.specs.Answers.{answer};
ghost use Rattle.ix_answers.specs.Needs.{needs_of, next_need, lacking_of};
ghost use Rattle.ix_answers.specs.Paths.{IsPath, turned};
ghost use Rattle.ix_answers.specs.Rising.{AreLoaded};
ghost use Rattle.ix_answers.specs.Walks.{edges_from};
ghost use Rattle.ix_lookups.specs.Found.{found_in};
ghost use Rattle.ix_lookups.specs.Loaded.{Loaded, loaded_names};
ghost use Rattle.ix_needs.specs.Premises.{is_plain, Holds};
ghost use Rattle.ix_levels.specs.Levels.{level_names, level_edges};
ghost use Rattle.ix_levels.specs.Trail.{Trail, walk_of, start_of, depth_of, IsOpenOver, IsDone, IsAtStart, IsNextLevel, IsSameLevel};

use ix_answers::Walk;
use ix_types::Query;

/// The records that look-ups name for a level are those that it needs, in the same order.
pub fn look_ups_name_the_levels()
    ensures { (walk : Walk) (level : List (List ℕ)) (units : Units) → level_names walk level (found_in units) ≡ needs_of walk level units }
{
    ix_model::laws::answers_are_sorted_sets();
    ix_model::laws::the_sorted_set_is_one();
}

/// Needed records have all edges of a level: by their rows begin there those that do so by all rows of all units, and no others.
pub fn needed_records_have_the_edges()
    ensures { (walk : Walk) (depth : ℕ) (level : List (List ℕ)) (units : Units) (bodies : Loaded) (e : EdgeRow) → Holds units bodies → AreLoaded (loaded_names bodies) (needs_of walk level units)
        → Contains (level_edges walk depth level (needs_of walk level units) (found_in units) bodies) e ↔ Contains (edges_from walk depth level (rows units)) e }
{
    ix_model::laws::answers_are_sorted_sets();
    ix_model::laws::the_sorted_set_is_one();
    ix_answers::laws::look_ups_are_those();
}

/// A walk is open at its start, whatever is loaded.
pub fn walks_open()
    ensures { (query : Query) (units : Units) (bodies : Loaded) (trail : Trail) → is_plain query ≡ false → IsAtStart (walk_of query) (start_of query) (depth_of query) (found_in units) trail → IsOpenOver query units bodies trail }
{
    look_ups_name_the_levels();
}

/// It stays open when it goes a level further, once all that the level needs is loaded.
pub fn walks_go_on()
    ensures { (query : Query) (units : Units) (bodies : Loaded) (before after : Trail) → Holds units bodies → IsOpenOver query units bodies before → AreLoaded (loaded_names bodies) before.needed
        → IsNextLevel (found_in units) bodies before after → IsOpenOver query units bodies after }
{
    ix_model::laws::answers_are_sorted_sets();
    ix_model::laws::the_sorted_set_is_one();
    look_ups_name_the_levels();
    needed_records_have_the_edges();
}

/// It stays open at the same level, at any place that it has come to, and while bodies are loaded and none goes.
pub fn walks_stay_open()
    ensures level { (query : Query) (units : Units) (bodies : Loaded) (before after : Trail) → IsOpenOver query units bodies before → IsSameLevel before after
        → AreLoaded (loaded_names bodies) (take after.place after.needed) → IsOpenOver query units bodies after }
    ensures loads { (query : Query) (units : Units) (before after : Loaded) (trail : Trail) → AreLoaded (loaded_names after) (loaded_names before)
        → IsOpenOver query units before trail → IsOpenOver query units after trail }
{}

/// What an open walk's level lacks comes next. Where its level lacks nothing and it is done, nothing comes next.
pub fn what_a_level_lacks_comes_next()
    ensures some { (query : Query) (units : Units) (bodies : Loaded) (trail : Trail) (name : List ℕ) → IsOpenOver query units bodies trail
        → lacking_of (loaded_names bodies) trail.needed ≡ Some name → next_need query units (loaded_names bodies) ≡ Some name }
    ensures none { (query : Query) (units : Units) (bodies : Loaded) (trail : Trail) → IsOpenOver query units bodies trail
        → lacking_of (loaded_names bodies) trail.needed ≡ None → IsDone trail → next_need query units (loaded_names bodies) ≡ None }
{
    ix_answers::laws::the_next_need_is_that();
}

/// The edges of a walk that is done, sorted and without repeats, are the answer over all rows of all units.
pub fn walks_end_with_the_answer()
    ensures { (query : Query) (units : Units) (bodies : Loaded) (trail : Trail) → IsOpenOver query units bodies trail → IsDone trail
        → map Edge (sorted_set edge_cmp trail.edges) ≡ answer query units }
{}

/// The sorted set of edges rises strictly, has these edges and no others, and is the only such list.
pub fn edges_have_one_sorted_set()
    ensures set { (edges : List EdgeRow) → IsSortedSetOf edge_cmp edges (sorted_set edge_cmp edges) }
    ensures one { (edges first second : List EdgeRow) → IsSortedSetOf edge_cmp edges first → IsSortedSetOf edge_cmp edges second → first ≡ second }
{}

/// An edge of a walk's answer ends a path of as many edges as its depth, and no path of fewer leads to where it begins. An edge to a
/// caller is one to a callee the other way round.
pub fn edges_end_shortest_paths()
    ensures path { (query : Query) (units : Units) (e : EdgeRow) → is_plain query ≡ false → Contains (answer query units) (Edge e)
        → IsPath (walk_of query) (rows units) (start_of query) e.depth e.to }
    ensures shortest { (query : Query) (units : Units) (e : EdgeRow) (m : ℕ) → is_plain query ≡ false → Contains (answer query units) (Edge e) → m + 1 < e.depth
        → IsPath (walk_of query) (rows units) (start_of query) m e.from → ⊥ }
    ensures mirror { (units : Units) (e : EdgeRow) → Contains (answer (Query.Incoming e.from 1) units) (Edge e) ↔ Contains (answer (Query.Outgoing e.to 1) units) (Edge (turned e)) }
{
    ix_answers::laws::walks_are_those();
}
