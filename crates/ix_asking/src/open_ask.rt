//! An ask that is open.
ghost use Rattle.std.specs.Prelude.{◌≡◌, Some, None, true, IfOk};
ghost use Rattle.ix_types.specs.declared.row.Query.{Query};
ghost use Rattle.ix_model.specs.Units.{Units};
ghost use Rattle.ix_answers.specs.Answers.{answer};
ghost use Rattle.ix_answers.specs.Needs.{next_need};
ghost use Rattle.ix_lookups.specs.Found.{found_in};
ghost use Rattle.ix_lookups.specs.Loaded.{Loaded, loaded_names};
ghost use Rattle.ix_needs.specs.Premises.{is_plain, Holds};
ghost use Rattle.ix_asking.specs.Open.{IsOpen, IsAnswered, IsSafe};

use crate::form::is_plain;
use ix_hierarchy::OpenWalk;
use ix_lookups::{Bodies, Lookups};
use ix_query::Question;
use ix_types::{FileName, Memory, Query, Row, Seq};
use std::alloc::Global;

/// An ask that was opened and isn't answered: what it needs was made once, and it keeps its place there.
#[derive(Drop)]
pub enum OpenAsk {
    /// A question that is no walk.
    Plain(Question),
    /// A walk.
    Walk(OpenWalk),
}

impl OpenAsk {
    /// Opens an ask of any form.
    pub fn open<L: Lookups>(alloc: Global, query: &Query, lookups: &L) -> Result<OpenAsk, Memory>
        ensures over { IfOk result (λ ask. (units : Units) (bodies : Loaded) → L.found lookups.now ≡ found_in units → IsOpen query.now units bodies ask) }
        ensures safe { IfOk result (λ ask. (bodies : Loaded) → IsSafe query.now bodies ask) }
    {
        if is_plain(query) {
            Ok(OpenAsk::Plain(Question::open(alloc, query, lookups)?))
        } else {
            Ok(OpenAsk::Walk(OpenWalk::open(alloc, query, lookups)?))
        }
    }

    /// The next record to load: the least that the query needs and that isn't loaded, for a walk that of the first level that lacks one. None exactly where none
    /// is lacking, and then the ask can be answered. It stays open, also after want of memory.
    pub fn next_need<L: Lookups>(
        &mut self,
        alloc: Global,
        lookups: &L,
        bodies: &Bodies,
    ) -> Result<Option<FileName>, Memory>
        requires { (query : Query) × IsSafe query bodies.now self.old }
        ensures next { IfOk result (λ name. (query : Query) (units : Units) → L.found lookups.now ≡ found_in units → Holds units bodies.now → IsOpen query units bodies.now self.old
            → name ≡ next_need query units (loaded_names bodies.now)) }
        ensures open { (query : Query) (units : Units) → L.found lookups.now ≡ found_in units → Holds units bodies.now → IsOpen query units bodies.now self.old
            → IsOpen query units bodies.now self.new }
        ensures safe { (query : Query) → IsSafe query bodies.now self.old → IsSafe query bodies.now self.new }
        ensures done { IfOk result (λ name. name ≡ None → IsAnswered self.new) }
    {
        match self {
            OpenAsk::Plain(question) => Ok(question.next_need(bodies)),
            OpenAsk::Walk(walk) => walk.next_need(alloc, lookups, bodies),
        }
    }

    /// The answer, where nothing is lacking: that over all rows of all units. Reads no file.
    pub fn answer<L: Lookups>(
        self,
        alloc: Global,
        query: &Query,
        lookups: &L,
        bodies: &Bodies,
    ) -> Result<Seq<Row>, Memory>
        requires { IsSafe query.now bodies.now self }
        ensures { IfOk result (λ rows. (units : Units) → L.found lookups.now ≡ found_in units → Holds units bodies.now → IsOpen query.now units bodies.now self → IsAnswered self
            → next_need query.now units (loaded_names bodies.now) ≡ None → rows ≡ answer query.now units) }
    {
        ix_answers::laws::the_next_need_is_that();
        match self {
            OpenAsk::Plain(_question) => ix_query::answer(alloc, query, lookups, bodies),
            OpenAsk::Walk(walk) => walk.into_answer(alloc),
        }
    }
}
