//! Laws of open questions, each the contract of a function that does nothing.
ghost use Rattle.std.specs.Prelude.{ℕ, List, IsSome};
ghost use Rattle.ix_lookups.specs.Loaded.{Loaded, body_named};
ghost use Rattle.ix_query.specs.Asked.{Asked, IsOpenOver};

/// A question stays open while bodies are loaded and none goes.
pub fn loading_keeps_questions_open()
    ensures { (asked : Asked) (before after : Loaded) → ((name : List ℕ) → IsSome (body_named name before) → IsSome (body_named name after))
        → IsOpenOver asked before → IsOpenOver asked after }
{
    ix_lookups::laws::loaded_names_have_bodies();
}
