//! Laws of open asks, each the contract of a function that does nothing.
ghost use Rattle.std.specs.Prelude.{ℕ, List, IsSome};
ghost use Rattle.ix_types.specs.declared.row.Query.{Query};
ghost use Rattle.ix_model.specs.Units.{Units};
ghost use Rattle.ix_lookups.specs.Loaded.{Loaded, body_named};
ghost use Rattle.ix_asking.specs.Open.{IsOpen, IsSafe};

use crate::open_ask::OpenAsk;

/// An ask stays open while bodies are loaded and none goes.
pub fn loading_keeps_asks_open()
    ensures over { (query : Query) (units : Units) (before after : Loaded) (ask : OpenAsk) → ((name : List ℕ) → IsSome (body_named name before) → IsSome (body_named name after))
        → IsOpen query units before ask → IsOpen query units after ask }
    ensures safe { (query : Query) (before after : Loaded) (ask : OpenAsk) → ((name : List ℕ) → IsSome (body_named name before) → IsSome (body_named name after))
        → IsSafe query before ask → IsSafe query after ask }
{
    ix_query::laws::loading_keeps_questions_open();
    ix_hierarchy::laws::loading_keeps_walks_open();
}
