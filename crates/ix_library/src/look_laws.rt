//! When a library may scan, load and install. A caller's proof gets a law by calling its function, which does nothing.
ghost use Rattle.std.specs.Prelude.{◌≡◌, ℕ, true, List};
ghost use Rattle.ix_dir.specs.State.{DirState};
ghost use Rattle.ix_machine.specs.declared.event.Purpose.{Purpose};
ghost use Rattle.ix_machine.specs.Run.{MayLoad, OpenedImport};
ghost use Rattle.ix_machine.specs.State.{State};
ghost use Rattle.ix_shelf.specs.Shelf.{OnShelf};
ghost use Rattle.ix_ledger.specs.Kept.{Kept};
ghost use Rattle.ix_ledger.specs.Registered.{has_opened};
ghost use Rattle.ix_library.specs.declared.known.KnownStamps.{KnownStamps};
ghost use Rattle.ix_library.specs.Looks.{StandsThere, MayLoadThere};
ghost use Rattle.ix_library.specs.StandsFor.{StandsFor};

/// A library that stands for a state may scan; it may load for a lane where the machine may, and install where the machine may.
pub fn looks_may_be_made()
    ensures scan { (name_of : List ℕ → List ℕ) (s : State) (kept : Kept) (shelf : OnShelf) (known : KnownStamps) (dir : DirState) → StandsFor name_of s kept shelf known dir → StandsThere name_of kept shelf known dir }
    ensures load { (name_of : List ℕ → List ℕ) (s : State) (kept : Kept) (shelf : OnShelf) (known : KnownStamps) (dir : DirState) (lane : ℕ) (name : List ℕ) (purpose : Purpose) → StandsFor name_of s kept shelf known dir → MayLoad s lane name purpose → MayLoadThere name_of kept shelf known dir lane name purpose }
    ensures install { (name_of : List ℕ → List ℕ) (s : State) (kept : Kept) (shelf : OnShelf) (known : KnownStamps) (dir : DirState) (lane : ℕ) → StandsFor name_of s kept shelf known dir → OpenedImport s lane → has_opened kept lane ≡ true }
{}
