//! The results of a lane's asks, with room for those to come.
ghost use Rattle.std.specs.Prelude.{◌≡◌, ◌≤◌, ◌<◌, ◌+◌, ◌-◌, [], ◌∷◌, ◌++◌, OnOk, IfOk};

use crate::answered::Answered;
use ix_types::{Memory, Seq};
use std::alloc::Global;
use std::marker::Model;

/// Results so far, and how many more fit.
#[derive(Debug, Drop)]
pub(crate) struct Results {
    answers: Vec<Answered>,
    room: usize,
}

impl Model for Results {
    ghost use Rattle.std.specs.Prelude.{◌≤◌, ◌+◌, length, vec_capacity};
    ghost use Rattle.ix_lanes.specs.Views.{Given};

    ghost Value = { Given };

    ghost view = { λ r. record { answers = r.answers.items; room = r.room } };

    ghost invariant = { λ r. length r.answers.items + r.room ≤ vec_capacity r.answers };
}

impl Results {
    /// No results, and room for so many.
    pub(crate) fn new(alloc: Global, room: usize) -> Result<Results, Memory>
        ensures { IfOk result (λ results. results ≡ record { answers = []; room = room }) }
    {
        let answers = Vec::with_capacity(alloc, room)?;
        Ok(Results { answers, room })
    }

    /// The results so far.
    pub(crate) fn answers(&self) -> &[Answered]
        ensures { result.now ≡ self.now.answers }
    {
        &self.answers
    }

    /// The results, in order.
    pub(crate) fn into_answers(self) -> Seq<Answered>
        ensures { result ≡ self.answers }
    {
        let Results { answers, room: _ } = self;
        Seq::of(answers)
    }

    /// One result more. Takes no memory.
    pub(crate) fn add(&mut self, answer: Answered)
        requires { 0 < self.old.room }
        ensures { self.new ≡ record { answers = self.old.answers ++ answer ∷ []; room = self.old.room - 1 } }
    {
        self.room -= 1;
        self.answers.push_reserved(answer);
    }
}
