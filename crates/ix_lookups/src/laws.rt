//! Laws of the definitions, each the contract of a function that does nothing.
ghost use Rattle.std.specs.Prelude.{◌≡◌, ◌↔◌, ℕ, List, Contains, IsSome};
ghost use Rattle.ix_model.specs.Units.{Units};
ghost use Rattle.ix_answers.specs.Batches.{unit_of};
ghost use Rattle.ix_answers.specs.Lookups as scratch;
ghost use Rattle.ix_lookups.specs.Found.{name_at, unit, found_in};
ghost use Rattle.ix_lookups.specs.Loaded.{Loaded, body_named, loaded_names};

/// What is found in a map of units is what the definitions from scratch find there.
pub fn found_is_from_scratch()
    ensures providers { (units : Units) (usr : List ℕ) → (found_in units).providers usr ≡ scratch.providers usr units }
    ensures related { (units : Units) (usr : List ℕ) → (found_in units).related usr ≡ scratch.related usr units }
    ensures named { (units : Units) (name : List ℕ) → (found_in units).named name ≡ scratch.named name units }
    ensures coded { (units : Units) (codegen : List ℕ) → (found_in units).coded codegen ≡ scratch.coded codegen units }
    ensures in_path { (units : Units) (path : List ℕ) → (found_in units).in_path path ≡ scratch.in_path path units }
    ensures paths { (units : Units) (name : List ℕ) → (found_in units).paths name ≡ scratch.paths name units }
    ensures listing { (units : Units) (path : List ℕ) → (found_in units).listing path ≡ scratch.listing path units }
    ensures names { (units : Units) (place : ℕ) → name_at place (found_in units) ≡ scratch.name_at place units }
    ensures unit { (units : Units) (name : List ℕ) → unit name (found_in units) ≡ unit_of name units }
{}

/// A name is among the loaded ones exactly where a body is found under it.
pub fn loaded_names_have_bodies()
    ensures { (bodies : Loaded) (name : List ℕ) → Contains (loaded_names bodies) name ↔ IsSome (body_named name bodies) }
{}
