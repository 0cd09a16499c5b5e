//! Of two faults the one that is read first is the answer: laws of the definitions. Each is the contract of a function that does nothing.
ghost use Rattle.std.specs.Prelude.{◌≡◌, ◌∷◌, ◌<◌, ◌+◌, ◌||◌, ℕ, List, [], length, codes, Bool, false, Some, None, Ok, Err};
ghost use Rattle.std.specs.Fmt.{decimal};
ghost use Rattle.serde_json.specs.Data.{Data, Items, no_items, item, Members};
ghost use Rattle.serde_json.specs.Find.{as_array};
ghost use Rattle.ix_types.specs.declared.format.Format.{Format};
ghost use Rattle.ix_plan.specs.declared.plan.Script.{Script};
ghost use Rattle.ix_plan.specs.declared.plan.Step.{Step};
ghost use Rattle.ix_plan.specs.declared.plan.SymbolPlan.{SymbolPlan};
ghost use Rattle.ix_plan.specs.declared.plan.OccurrencePlan.{OccurrencePlan};
ghost use Rattle.ix_plan.specs.declared.steps.AskPlace.{AskPlace};
ghost use Rattle.ix_plan.specs.declared.refusal.What.{What};
ghost use Rattle.ix_plan.specs.declared.refusal.What.TheVariants.{Words};
ghost use Rattle.ix_plan.specs.declared.refusal.ScriptRefusal.{ScriptRefusal};
ghost use Rattle.ix_plan.specs.declared.refusal.ScriptRefusal.TheVariants.{BadValue, TooMany};
ghost use Rattle.ix_plan.specs.Read.{Read, within};
ghost use Rattle.ix_plan.specs.Json.{json_of, object_of, with_fields, field, field_or, in_order, one_more, list_of, items_count};
ghost use Rattle.ix_plan.specs.Values.{string_of, text_of, flag_of, some_bits_of, with_bit};
ghost use Rattle.ix_plan.specs.Plans.{symbols_of, record_of};
ghost use Rattle.ix_plan.specs.Steps.{is_word, ask_fields, ask_of, step_by_word, step_of};
ghost use Rattle.ix_plan.specs.Reading.{format_of, lanes_of, order_of, fields_of, script_of};
ghost use Rattle.ix_plan_text.specs.Faults.{read_then, then_items};

/// One thing is read and then the next: a fault of the first is the answer, and where it has none the next is. The text is read before its value.
#[tactic(auto, using(crate::proofs::FirstFaults::first_fault, crate::proofs::FirstFaults::then_next, crate::proofs::FirstFaults::text_first))]
pub fn a_fault_ends_the_reading()
    ensures fault { (read : Read Data) (next : Data → Read Script) (r : ScriptRefusal) → read ≡ Err r → read_then read next ≡ Err r }
    ensures next { (read : Read Data) (next : Data → Read Script) (a : Data) → read ≡ Ok a → read_then read next ≡ next a }
    ensures text { (bytes : List ℕ) (r : ScriptRefusal) → json_of bytes ≡ Err r → script_of bytes ≡ Err r }
{}

/// A script's fields are judged first, and then come `format`, `lanes` and `order`.
#[tactic(auto, using(crate::proofs::FirstFaults::script_fields, crate::proofs::FirstFaults::script_format, crate::proofs::FirstFaults::script_lanes, crate::proofs::FirstFaults::script_order))]
pub fn a_script_is_read_in_order()
    ensures fields { (d : Data) (r : ScriptRefusal) → with_fields (codes "format" ∷ codes "lanes" ∷ codes "order" ∷ []) d ≡ Err r → fields_of d ≡ Err r }
    ensures format { (d : Data) (r : ScriptRefusal) → with_fields (codes "format" ∷ codes "lanes" ∷ codes "order" ∷ []) d ≡ Ok tt
        → field (codes "format") format_of d ≡ Err r → fields_of d ≡ Err r }
    ensures lanes { (d : Data) (r : ScriptRefusal) (format : Format) → with_fields (codes "format" ∷ codes "lanes" ∷ codes "order" ∷ []) d ≡ Ok tt
        → field (codes "format") format_of d ≡ Ok format → field (codes "lanes") (lanes_of format) d ≡ Err r → fields_of d ≡ Err r }
    ensures order { (d : Data) (r : ScriptRefusal) (format : Format) (lanes : List (List Step)) → with_fields (codes "format" ∷ codes "lanes" ∷ codes "order" ∷ []) d ≡ Ok tt
        → field (codes "format") format_of d ≡ Ok format → field (codes "lanes") (lanes_of format) d ≡ Ok lanes
        → field_or [] (codes "order") (order_of (length lanes)) d ≡ Err r → fields_of d ≡ Err r }
{}

/// A step's sort is judged first, then its `do`, whatever other fields there are, and then the fields of its word.
#[tactic(auto, using(crate::proofs::FirstFaults::step_sort, crate::proofs::FirstFaults::step_do, crate::proofs::FirstFaults::step_word, crate::proofs::FirstFaults::other_word))]
pub fn a_step_is_read_by_its_word()
    ensures sort { (format : Format) (d : Data) (r : ScriptRefusal) → object_of d ≡ Err r → step_of format d ≡ Err r }
    ensures word { (format : Format) (d : Data) (members : Members) (r : ScriptRefusal) → object_of d ≡ Ok members → field (codes "do") string_of d ≡ Err r → step_of format d ≡ Err r }
    ensures step { (format : Format) (d : Data) (members : Members) (word : List ℕ) → object_of d ≡ Ok members → field (codes "do") string_of d ≡ Ok word
        → step_of format d ≡ step_by_word format word d }
    ensures other { (format : Format) (d : Data) (word : List ℕ) → (is_word (codes "build") word || is_word (codes "remove") word || is_word (codes "poll") word || is_word (codes "refresh") word
        || is_word (codes "ask") word || is_word (codes "release") word || is_word (codes "collect") word) ≡ false → step_by_word format word d ≡ Err (BadValue (codes "/do")) }
{}

/// An ask's `query` is judged before its fields, whatever other fields there are.
#[tactic(auto, using(crate::proofs::FirstFaults::ask_word, crate::proofs::FirstFaults::def_fields))]
pub fn an_ask_is_read_by_its_word()
    ensures word { (at : AskPlace) (format : Format) (d : Data) (r : ScriptRefusal) → field (codes "query") string_of d ≡ Err r → ask_of at format d ≡ Err r }
    ensures fields { (at : AskPlace) (format : Format) (d : Data) (r : ScriptRefusal) → field (codes "query") string_of d ≡ Ok (codes "def")
        → with_fields (ask_fields at (codes "usr" ∷ [])) d ≡ Err r → ask_of at format d ≡ Err r }
{}

/// A list's sort is judged first, then its length, whatever its items are: a lane's, a record's symbols', its occurrences'.
#[tactic(auto, using(crate::proofs::FirstFaults::list_sort, crate::proofs::FirstFaults::list_length))]
pub fn a_list_is_judged_before_its_items()
    ensures steps_sort { (what : What) (most : ℕ) (f : List Step → Data → Read Step) (d : Data) → as_array d ≡ None → list_of what most f d ≡ Err (BadValue []) }
    ensures steps_length { (what : What) (most : ℕ) (f : List Step → Data → Read Step) (d : Data) (ds : Items) → as_array d ≡ Some ds → most < items_count ds
        → list_of what most f d ≡ Err (TooMany what) }
    ensures symbols_sort { (what : What) (most : ℕ) (f : List SymbolPlan → Data → Read SymbolPlan) (d : Data) → as_array d ≡ None → list_of what most f d ≡ Err (BadValue []) }
    ensures symbols_length { (what : What) (most : ℕ) (f : List SymbolPlan → Data → Read SymbolPlan) (d : Data) (ds : Items) → as_array d ≡ Some ds → most < items_count ds
        → list_of what most f d ≡ Err (TooMany what) }
    ensures occurrences_sort { (what : What) (most : ℕ) (f : List OccurrencePlan → Data → Read OccurrencePlan) (d : Data) → as_array d ≡ None → list_of what most f d ≡ Err (BadValue []) }
    ensures occurrences_length { (what : What) (most : ℕ) (f : List OccurrencePlan → Data → Read OccurrencePlan) (d : Data) (ds : Items) → as_array d ≡ Some ds → most < items_count ds
        → list_of what most f d ≡ Err (TooMany what) }
{}

/// Behind items that are read the first that has a fault is answered, at its number, whatever comes behind it.
#[tactic(auto, using(crate::proofs::FirstFaults::later_item))]
pub fn the_first_item_with_a_fault_is_answered()
    ensures steps_later { (f : List Step → Data → Read Step) (before good : List Step) (i : ℕ) (front rest : Items) (d : Data) (r : ScriptRefusal)
        → in_order f one_more before i front ≡ Ok good → within (decimal (items_count front + i)) (f good d) ≡ Err r
        → in_order f one_more before i (then_items front (item d rest)) ≡ Err r }
    ensures symbols_later { (f : List SymbolPlan → Data → Read SymbolPlan) (before good : List SymbolPlan) (i : ℕ) (front rest : Items) (d : Data) (r : ScriptRefusal)
        → in_order f one_more before i front ≡ Ok good → within (decimal (items_count front + i)) (f good d) ≡ Err r
        → in_order f one_more before i (then_items front (item d rest)) ≡ Err r }
    ensures occurrences_later { (f : List OccurrencePlan → Data → Read OccurrencePlan) (before good : List OccurrencePlan) (i : ℕ) (front rest : Items) (d : Data) (r : ScriptRefusal)
        → in_order f one_more before i front ≡ Ok good → within (decimal (items_count front + i)) (f good d) ≡ Err r
        → in_order f one_more before i (then_items front (item d rest)) ≡ Err r }
{}

/// A list of words: one that is too long is refused before its items, an empty list of roles too, and then its items are read in order.
#[tactic(auto, using(crate::proofs::FirstFaults::words_length, crate::proofs::FirstFaults::no_words, crate::proofs::FirstFaults::later_item))]
pub fn words_are_read_in_order()
    ensures words { (word : Data → Read ℕ) (d : Data) (ds : Items) → as_array d ≡ Some ds → 64 < items_count ds → some_bits_of word d ≡ Err (TooMany Words) }
    ensures empty { (word : Data → Read ℕ) (d : Data) → as_array d ≡ Some no_items → some_bits_of word d ≡ Err (BadValue []) }
    ensures later { (f : ℕ → Data → Read ℕ) (before good i : ℕ) (front rest : Items) (d : Data) (r : ScriptRefusal)
        → in_order f with_bit before i front ≡ Ok good → within (decimal (items_count front + i)) (f good d) ≡ Err r
        → in_order f with_bit before i (then_items front (item d rest)) ≡ Err r }
{}

/// A record's symbols are judged before its occurrences.
#[tactic(auto, using(crate::proofs::FirstFaults::record_symbols))]
pub fn symbols_are_read_before_occurrences()
    ensures symbols { (format : Format) (d : Data) (path : List ℕ) (system : Bool) (r : ScriptRefusal)
        → with_fields (codes "path" ∷ codes "system" ∷ codes "symbols" ∷ codes "occurrences" ∷ []) d ≡ Ok tt → field (codes "path") text_of d ≡ Ok path
        → field_or false (codes "system") flag_of d ≡ Ok system → field_or [] (codes "symbols") (symbols_of format) d ≡ Err r → record_of format d ≡ Err r }
{}
