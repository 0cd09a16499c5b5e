//! Laws of open walks, each the contract of a function that does nothing.
ghost use Rattle.std.specs.Prelude.{ℕ, List, IsSome};
ghost use Rattle.ix_types.specs.declared.row.Query.{Query};
ghost use Rattle.ix_model.specs.Units.{Units};
ghost use Rattle.ix_lookups.specs.Loaded.{Loaded, body_named};
ghost use Rattle.ix_levels.specs.Trail.{Trail, IsOpenOver};

/// A walk stays open while bodies are loaded and none goes.
pub fn loading_keeps_walks_open()
    ensures { (query : Query) (units : Units) (before after : Loaded) (trail : Trail) → ((name : List ℕ) → IsSome (body_named name before) → IsSome (body_named name after))
        → IsOpenOver query units before trail → IsOpenOver query units after trail }
{
    ix_lookups::laws::loaded_names_have_bodies();
    ix_levels::laws::walks_stay_open();
}
