//! An open question, which keeps its place among the records that it needs.
ghost use Rattle.std.specs.Prelude.{◌≡◌, ◌≤◌, true, take, slice_get, IfOk};
ghost use Rattle.ix_model.specs.Units.{Units};
ghost use Rattle.ix_answers.specs.Lookups.{is_among};
ghost use Rattle.ix_answers.specs.Needs.{need_of, lacking_of};
ghost use Rattle.ix_answers.specs.Rising.{AreLoaded};
ghost use Rattle.ix_lookups.specs.Found.{found_in};
ghost use Rattle.ix_lookups.specs.Loaded.{Loaded, loaded_names};
ghost use Rattle.ix_needs.specs.Chosen.{needed_from};
ghost use Rattle.ix_needs.specs.Premises.{is_plain};
ghost use Rattle.ix_query.specs.Asked.{IsOpenOver};

use crate::needed::needed;
use ix_lookups::{Bodies, Lookups};
use ix_types::{FileName, Memory, Query};
use std::alloc::Global;
use std::marker::Model;

/// A query's needs, made once, with a place among them.
#[derive(Debug, Drop)]
pub struct Question {
    needed: Vec<FileName>,
    place: usize,
}

impl Model for Question {
    ghost use Rattle.ix_query.specs.Asked.{Asked};

    ghost Value = { Asked };

    ghost view = { λ q. record { needed = q.needed.items; place = q.place } };
}

impl Question {
    /// Opens a question that is no walk. It needs what the query needs over the units whose look-ups these are, and has passed nothing.
    pub fn open<L: Lookups>(alloc: Global, query: &Query, lookups: &L) -> Result<Question, Memory>
        requires { is_plain query.now ≡ true }
        ensures needed { IfOk result (λ question. (units : Units) → L.found lookups.now ≡ found_in units → question.needed ≡ need_of query.now units) }
        ensures first { IfOk result (λ question. (bodies : Loaded) → IsOpenOver question bodies) }
    {
        ix_needs::laws::look_ups_name_the_needs();
        Question::of(alloc, query, lookups)
    }

    /// What look-ups name, with nothing passed.
    fn of<L: Lookups>(alloc: Global, query: &Query, lookups: &L) -> Result<Question, Memory>
        ensures needed { IfOk result (λ question. question.needed ≡ needed_from query.now (L.found lookups.now)) }
        ensures first { IfOk result (λ question. (bodies : Loaded) → IsOpenOver question bodies) }
    {
        Ok(Question {
            needed: needed(alloc, query, lookups)?,
            place: 0,
        })
    }

    /// The least needed record that isn't loaded; None exactly where none is lacking. What was passed must still be loaded. The place moves to what
    /// is answered, and from there the next call goes on. Takes no memory, and looks no record up again that it has passed.
    pub fn next_need(&mut self, bodies: &Bodies) -> Option<FileName>
        requires { IsOpenOver self.old bodies.now }
        ensures next { result ≡ lacking_of (loaded_names bodies.now) self.old.needed }
        ensures place { slice_get self.new.needed self.new.place ≡ result }
        ensures needed { self.new.needed ≡ self.old.needed }
        ensures open { IsOpenOver self.new bodies.now }
        ensures forward { self.old.place ≤ self.new.place }
    {
        self.place = first_lacking(&self.needed, self.place, bodies);
        self.needed.get(self.place).copied()
    }
}

/// The place, from this one on, of the first name that isn't loaded; past the last where there is none.
fn first_lacking(needed: &[FileName], from: usize, bodies: &Bodies) -> usize
    requires { AreLoaded (loaded_names bodies.now) (take from needed.now) }
    ensures lacking { slice_get needed.now result ≡ lacking_of (loaded_names bodies.now) needed.now }
    ensures passed { AreLoaded (loaded_names bodies.now) (take result needed.now) }
    ensures forward { from ≤ result }
{
    let mut place = from;
    while place < needed.len() {
        if !is_loaded(&needed[place], bodies) {
            return place;
        }
        place += 1;
    }
    place
}

/// Whether a body is loaded under the name.
fn is_loaded(name: &FileName, bodies: &Bodies) -> bool
    ensures { result ≡ is_among (loaded_names bodies.now) name.now }
{
    bodies.get(name).is_some()
}
