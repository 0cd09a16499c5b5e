//! Laws of the definitions. Each is the contract of a function that does nothing.
ghost use Rattle.std.specs.Prelude.{◌≡◌, ◌==◌, ◌↔◌, ◌<◌, ◌≤◌, ◌+◌, ◌-◌, ◌^◌, ℕ, List, length, Some, None, true, false, IsTrue, Contains, codes};
ghost use Rattle.std.specs.Int.{bit_at};
ghost use Rattle.ix_types.specs.Codes.{Table, IsCodeTable, name_of_code, code_of_name, kinds, langs, roles, props, struct_code, swift_code, mask_of_name, masks_from, relation_bits, has_any, ShareBit};
ghost use Rattle.ix_types.specs.Count.{Rose, CountsWhere, counted};
ghost use Rattle.ix_types.specs.Name.{IsFileName};
ghost use Rattle.ix_types.specs.Row.{text_cmp, relation_cmp, occurrence_cmp, edge_cmp};
ghost use Rattle.ix_types.specs.Text.{max_text_len, IsText, IsTextOrEmpty};

use crate::code::{Kind, Lang, Roles};
use crate::name::FileName;
use crate::row::{EdgeRow, OccRow, RelRow};
use crate::text::Text;

/// In each table, of any size, the look-ups find its rows and answer None elsewhere: a name is the
/// code's exactly where the code is the name's.
pub fn look_ups_are_inverse()
    ensures names { (most : ℕ) (table : Table) (code : ℕ) (name : List ℕ) → IsCodeTable most table
        → (name_of_code table code ≡ Some name) ↔ Contains table (code, name) }
    ensures codes { (most : ℕ) (table : Table) (code : ℕ) (name : List ℕ) → IsCodeTable most table
        → (code_of_name table name ≡ Some code) ↔ Contains table (code, name) }
    ensures no_name { (most : ℕ) (table : Table) (code : ℕ) → IsCodeTable most table
        → (name_of_code table code ≡ None) ↔ ((name : List ℕ) → ¬ Contains table (code, name)) }
    ensures no_code { (most : ℕ) (table : Table) (name : List ℕ) → IsCodeTable most table
        → (code_of_name table name ≡ None) ↔ ((code : ℕ) → ¬ Contains table (code, name)) }
{}

/// The codes that stand as numbers are those of the tables' rows.
pub fn numbers_are_those_of_the_tables() -> (Kind, Lang)
    ensures struct_code { code_of_name kinds (codes "Struct") ≡ Some struct_code }
    ensures struct_kind { name_of_code kinds result.0 ≡ Some (codes "Struct") }
    ensures swift_code { code_of_name langs (codes "Swift") ≡ Some swift_code }
    ensures swift { name_of_code langs result.1 ≡ Some (codes "Swift") }
    ensures last_property { code_of_name props (codes "ProtocolInterface") ≡ Some 8 }
{
    (Kind::STRUCT, Lang::SWIFT)
}

/// The masks of the roles, and of all relations, are those of the table's bits.
pub fn masks_are_those_of_the_roles()
    ensures declaration { mask_of_name roles (codes "Declaration") ≡ Some Roles.DECLARATION }
    ensures definition { mask_of_name roles (codes "Definition") ≡ Some Roles.DEFINITION }
    ensures reference { mask_of_name roles (codes "Reference") ≡ Some Roles.REFERENCE }
    ensures read { mask_of_name roles (codes "Read") ≡ Some Roles.READ }
    ensures write { mask_of_name roles (codes "Write") ≡ Some Roles.WRITE }
    ensures call { mask_of_name roles (codes "Call") ≡ Some Roles.CALL }
    ensures dynamic { mask_of_name roles (codes "Dynamic") ≡ Some Roles.DYNAMIC }
    ensures address_of { mask_of_name roles (codes "AddressOf") ≡ Some Roles.ADDRESS_OF }
    ensures implicit { mask_of_name roles (codes "Implicit") ≡ Some Roles.IMPLICIT }
    ensures child_of { mask_of_name roles (codes "ChildOf") ≡ Some Roles.CHILD_OF }
    ensures base_of { mask_of_name roles (codes "BaseOf") ≡ Some Roles.BASE_OF }
    ensures override_of { mask_of_name roles (codes "OverrideOf") ≡ Some Roles.OVERRIDE_OF }
    ensures received_by { mask_of_name roles (codes "ReceivedBy") ≡ Some Roles.RECEIVED_BY }
    ensures called_by { mask_of_name roles (codes "CalledBy") ≡ Some Roles.CALLED_BY }
    ensures extended_by { mask_of_name roles (codes "ExtendedBy") ≡ Some Roles.EXTENDED_BY }
    ensures accessor_of { mask_of_name roles (codes "AccessorOf") ≡ Some Roles.ACCESSOR_OF }
    ensures contained_by { mask_of_name roles (codes "ContainedBy") ≡ Some Roles.CONTAINED_BY }
    ensures ib_type_of { mask_of_name roles (codes "IBTypeOf") ≡ Some Roles.IB_TYPE_OF }
    ensures specialization_of { mask_of_name roles (codes "SpecializationOf") ≡ Some Roles.SPECIALIZATION_OF }
    ensures relations { masks_from 9 roles ≡ relation_bits }
{}

/// Roles have one of a mask exactly where some bit is set in both: for Declaration bit 0, for Definition bit 1.
pub fn a_common_bit_is_set()
    ensures some { (roles mask : ℕ) → IsTrue (has_any roles mask) ↔ ShareBit roles mask }
    ensures declaration { (roles : ℕ) → has_any roles Roles.DECLARATION ≡ (bit_at roles 0 == 1) }
    ensures definition { (roles : ℕ) → has_any roles Roles.DEFINITION ≡ (bit_at roles 1 == 1) }
{}

/// Texts and names are compared by their bytes, and each row by its fields in the order of its definition.
pub fn values_have_one_order()
    ensures texts { (a b : Text) → ⟦<Text as Ord>⟧.cmp a b ≡ text_cmp a b }
    ensures names { (a b : FileName) → ⟦<FileName as Ord>⟧.cmp a b ≡ text_cmp a b }
    ensures relations { (a b : RelRow) → ⟦<RelRow as Ord>⟧.cmp a b ≡ relation_cmp a b }
    ensures occurrences { (a b : OccRow) → ⟦<OccRow as Ord>⟧.cmp a b ≡ occurrence_cmp a b }
    ensures edges { (a b : EdgeRow) → ⟦<EdgeRow as Ord>⟧.cmp a b ≡ edge_cmp a b }
{}

/// A count rises by one. That it rose says nothing only at the greatest `u64`, at which it stands still.
pub fn counts_rise()
    ensures next { (count : ℕ) → count < 2 ^ 64 - 1 → counted count ≡ count + 1 }
    ensures full { counted (2 ^ 64 - 1) ≡ 2 ^ 64 - 1 }
    ensures rises { (count : ℕ) → count < 2 ^ 64 → Rose count (counted count) }
    ensures greater { (before now : ℕ) → before < now → Rose before now }
    ensures at_the_end { (before : ℕ) → Rose before (2 ^ 64 - 1) }
    ensures stays { (before now : ℕ) → now ≤ before → now < 2 ^ 64 - 1 → ¬ Rose before now }
    ensures where_it_counts { (before now : ℕ) → CountsWhere true before now ↔ ((before ≤ now) × Rose before now) }
    ensures where_it_does_not { (before now : ℕ) → CountsWhere false before now ↔ (now ≡ before) }
{}

/// A text has at most 4,096 bytes, and one that may not be empty at least one; a name has 1 to 64 digits.
pub fn limits()
    ensures text { max_text_len ≡ 4096 }
    ensures at_most { (bytes : List ℕ) → IsTextOrEmpty bytes → length bytes ≤ 4096 }
    ensures not_empty { (bytes : List ℕ) → IsText bytes ↔ ((0 < length bytes) × IsTextOrEmpty bytes) }
    ensures name { (bytes : List ℕ) → IsFileName bytes → (0 < length bytes) × (length bytes ≤ 64) }
{}
