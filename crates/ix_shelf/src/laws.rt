//! What follows of puts and loads, and of what a shelf knows. A caller's proof gets a law by calling its function, which does nothing.
ghost use Rattle.std.specs.Prelude.{◌≡◌, ◌≢◌, ◌↔◌, ◌⊎◌, ℕ, List, [], Bool, true, false, Option, Some, None, IfSome, IsSome, Result, Ok, Err};
ghost use Rattle.std.specs.FinMap.{get};
ghost use Rattle.ix_dir.specs.declared.area.Area.TheVariants.{Records};
ghost use Rattle.ix_dir.specs.declared.moves.Move.{Move};
ghost use Rattle.ix_dir.specs.Calls.{Renames};
ghost use Rattle.ix_dir.specs.Files.{bytes_at};
ghost use Rattle.ix_dir.specs.Images.{Image, IsImage};
ghost use Rattle.ix_dir.specs.Moves.{area_after};
ghost use Rattle.ix_record.specs.declared.body.Body.{Body};
ghost use Rattle.ix_record.specs.declared.value.RecordValue.{RecordValue};
ghost use Rattle.ix_record.specs.Spelling.{RecordSpelling};
ghost use Rattle.ix_record.specs.Whole.{IsWhole};
ghost use Rattle.ix_shelf.specs.declared.fault.PutError.{PutError};
ghost use Rattle.ix_shelf.specs.declared.fault.PutError.TheVariants as failed;
ghost use Rattle.ix_shelf.specs.declared.shelf.Put.{Put};
ghost use Rattle.ix_shelf.specs.declared.shelf.Put.TheVariants.{Written, Shared};
ghost use Rattle.ix_shelf.specs.Answers.{put_answer, Answers, StandsWhole, IsRecordOf};
ghost use Rattle.ix_shelf.specs.Shelf.{OnShelf, Knows};

/// What a put is to answer: the same bytes are shared, other bytes under a protected name clash, and else the file is written.
pub fn put_answers()
    ensures absent { (protected : Bool) (body : Body) → put_answer protected body None ≡ Ok Written }
    ensures same { (protected : Bool) (body : Body) → put_answer protected body (Some body.bytes) ≡ Ok Shared }
    ensures protected { (body : Body) (there : List ℕ) → there ≢ body.bytes → put_answer true body (Some there) ≡ Err (failed.Clash body.name) }
    ensures other { (body : Body) (there : List ℕ) → there ≢ body.bytes → put_answer false body (Some there) ≡ Ok Written }
{}

/// A put answers what it is to, or that the directory failed, or that memory was wanting.
pub fn a_put_answers_what_it_is_to()
    ensures { (result want : Result Put PutError) → Answers result want ↔ ((result ≡ want) ⊎ ((result ≡ Err failed.Fault) ⊎ (result ≡ Err failed.Memory))) }
{}

/// A whole record that was put stands there whole.
pub fn put_record_stands_whole()
    ensures { (name_of : List ℕ → List ℕ) (body : Body) (before now : Option (List Move)) → Renames before now Records body.name body.bytes → IsWhole name_of body → IfSome now (StandsWhole name_of body.name) }
{
    ix_dir::laws::rename_leaves();
}

/// A record that stands whole is what stands under its name.
pub fn a_whole_record_is_what_stands()
    ensures there { (name_of : List ℕ → List ℕ) (name : List ℕ) (moves : List Move) → StandsWhole name_of name moves → IsSome (bytes_at (area_after moves Records) name) }
    ensures whole { (name_of : List ℕ → List ℕ) (name bytes : List ℕ) (moves : List Move) → StandsWhole name_of name moves → bytes_at (area_after moves Records) name ≡ Some bytes → IsWhole name_of (record { name = name; bytes = bytes }) }
{}

/// What a load gives is spelled by bytes that have the name, and where the moves are told by those that stand there.
pub fn a_loaded_record_is_what_stands()
    ensures named { (name_of : List ℕ → List ℕ) (name : List ℕ) (moves : Option (List Move)) (value : RecordValue) → IsRecordOf name_of name moves value → (bytes : List ℕ) × (name ≡ name_of bytes) × RecordSpelling bytes value }
    ensures stands { (name_of : List ℕ → List ℕ) (name : List ℕ) (moves : List Move) (value : RecordValue) → IsRecordOf name_of name (Some moves) value → StandsWhole name_of name moves }
    ensures spelled { (name_of : List ℕ → List ℕ) (name bytes : List ℕ) (moves : List Move) (value : RecordValue) → IsRecordOf name_of name (Some moves) value → bytes_at (area_after moves Records) name ≡ Some bytes → RecordSpelling bytes value }
{}

/// Where no change waits for a sync, a crash leaves in the records area what stands there. Every shelf knows this of an empty directory.
pub fn a_settled_shelf_leaves_what_stands()
    ensures empty { (shelf : OnShelf) → Knows shelf (Some []) }
    ensures left { (shelf : OnShelf) (moves : List Move) (image : Image) (name : List ℕ) → Knows shelf (Some moves) → shelf.unsynced ≡ false → IsImage moves image → get (image Records) name ≡ bytes_at (area_after moves Records) name }
{
    ix_dir::laws::settled_area_leaves_what_stands();
}
