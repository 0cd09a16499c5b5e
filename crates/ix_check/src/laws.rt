//! What the words of the contract come to, as worked texts. Each law is the contract of a function that does nothing.
ghost use Rattle.std.specs.Prelude.{◌≡◌, ◌∷◌, [], ◌++◌, codes, false};
ghost use Rattle.ix_check.specs.Texts.{check_text, text_over};
ghost use Rattle.ix_machine.specs.declared.opened.UnitFault.TheVariants as cause;

/// An empty store has one line, a refused unit file has its own, and a unit's line has its name and how many records it has.
pub fn texts_are_as_worked()
    ensures empty { check_text (record { units = []; refused = []; records = [] }) ≡ codes "checked 0 0" ++ 10 ∷ [] }
    ensures refused { check_text (record { units = []; refused = (record { name = codes "ab"; cause = cause.Short }) ∷ []; records = [] }) ≡ codes "refused ab short" ++ 10 ∷ codes "checked 0 1" ++ 10 ∷ [] }
    ensures both { text_over ((codes "cd", record { output = codes "o"; main_file = []; module_name = []; system = false; units = []; records = (record { path = codes "a"; system = false; name = codes "ef" }) ∷ []; files = []; includes = [] }) ∷ []) ((record { name = codes "ab"; cause = cause.Short }) ∷ (record { name = codes "ac"; cause = cause.RecordMissing (codes "ef") }) ∷ [])
        ≡ codes "unit cd 1" ++ 10 ∷ codes "refused ab short" ++ 10 ∷ codes "refused ac record-missing ef" ++ 10 ∷ codes "checked 1 2" ++ 10 ∷ [] }
{}
