//! Laws of an importer. Each is the contract of a function that does nothing.
ghost use Rattle.std.specs.Prelude.{◌≡◌, ◌≢◌, ◌↔◌, ℕ, List, map, Some, None, Contains};
ghost use Rattle.std.specs.List.Sorted.{IsStrictlySortedBy};
ghost use Rattle.std.specs.declared.cmp.Ordering.TheVariants.{Less};
ghost use Rattle.ix_types.specs.Row.{text_cmp};
ghost use Rattle.ix_model.specs.Units.{Units, NamesRise};
ghost use Rattle.ix_answers.specs.Batches.{LeadsTo, HaveOneValue};
ghost use Rattle.ix_pages.specs.Pairs.{look_up};
ghost use Rattle.ix_outline.specs.declared.outline.Outline.{Outline};
ghost use Rattle.ix_outline.specs.Following.{Follows};
ghost use Rattle.ix_outline.specs.Moving.{Named};
ghost use Rattle.ix_outline.specs.Known.{Lists, HaveValues, AreTables, bare};
ghost use Rattle.ix_outline.specs.Outline.{outline_of};
ghost use Rattle.ix_import.specs.Importing.{Opened, Importing, next_in, opened_by, begun, taken_into, took, abandoned};
ghost use Rattle.ix_import.specs.Leading.{IsImportOf, AreOutlinesOf, LeadsFrom, IsValueOf};

use ix_outline::Outline;
use ix_record::RecordValue;
use ix_types::FileName;
use ix_unit::Scan;

/// The next name is a new one that wasn't taken, and where the new names rise each lesser one of them was; there is none exactly where all were taken.
pub fn the_next_name_is_the_least()
    ensures there { (fresh : List (List ℕ)) (taken : Named Outline) (name : List ℕ) → next_in fresh taken ≡ Some name
        → Contains fresh name × (look_up text_cmp taken name ≡ None) }
    ensures least { (fresh : List (List ℕ)) (taken : Named Outline) (name other : List ℕ) → IsStrictlySortedBy text_cmp fresh → next_in fresh taken ≡ Some name
        → Contains fresh other → text_cmp other name ≡ Less → look_up text_cmp taken other ≢ None }
    ensures none { (fresh : List (List ℕ)) (taken : Named Outline) (name : List ℕ) → next_in fresh taken ≡ None → Contains fresh name
        → look_up text_cmp taken name ≢ None }
    ensures those { (fresh : List (List ℕ)) (taken : Named Outline) (name : List ℕ) → IsStrictlySortedBy text_cmp fresh → (next_in fresh taken ≡ Some name) ↔ (Contains fresh name
        × (look_up text_cmp taken name ≡ None) × ((other : List ℕ) → Contains fresh other → text_cmp other name ≡ Less → look_up text_cmp taken other ≢ None)) }
{}

/// A scan is an import from some units to others, whatever units stood before and whichever are gone, where its batch leads from the ones to the others, each
/// record of these has its one value, and its new names rise and are those that only the others list.
pub fn an_import_begins()
    ensures { (units later : Units) (scan : Scan) → LeadsTo scan.batch.puts scan.batch.gone units later → NamesRise later → HaveValues later → HaveOneValue units later
        → IsStrictlySortedBy text_cmp scan.fresh
        → ((name : List ℕ) → Contains scan.fresh name ↔ (Lists (map bare later) name × (Lists (map bare units) name → ⊥))) → IsImportOf units later (opened_by scan) }
{}

/// Once an import has taken all new names, its batch with what was taken leads from the units before to those at its mark.
pub fn an_import_leads_on()
    ensures { (units later : Units) (opened : Opened) → IsImportOf units later opened → AreOutlinesOf later opened → next_in opened.fresh opened.taken ≡ None
        → Follows opened.puts opened.gone opened.taken units later }
{}

/// What leads from some units to others still does once a record is taken with its value, which changes what was taken under no other name; an import that is
/// abandoned leaves tables of the units before.
pub fn an_import_goes_on()
    ensures begins { (units later : Units) (importing : Importing) (scan : Scan) → AreTables units importing.known → IsImportOf units later (opened_by scan)
        → LeadsFrom units later (begun scan importing) }
    ensures takes { (units later : Units) (importing : Importing) (name : List ℕ) (value : RecordValue) → LeadsFrom units later importing
        → IsValueOf later name value → LeadsFrom units later (took name (outline_of value) importing) }
    ensures taken { (name : List ℕ) (outline : Outline) (opened : Opened) → look_up text_cmp (taken_into name outline opened).taken name ≡ Some outline }
    ensures others { (name other : List ℕ) (outline : Outline) (opened : Opened) → other ≢ name
        → look_up text_cmp (taken_into name outline opened).taken other ≡ look_up text_cmp opened.taken other }
    ensures ends { (units later : Units) (importing : Importing) → LeadsFrom units later importing → AreTables units (abandoned importing).known }
{
    ix_pages::laws::a_change_changes_one_key::<FileName, Outline>();
}
