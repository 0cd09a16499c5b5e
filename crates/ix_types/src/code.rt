//! The codes of symbols and occurrences: kinds, languages, roles and properties.
ghost use Rattle.std.specs.Prelude.{◌≡◌, ◌++◌, OnOk, OnErr, ◌↔◌, ◌<◌, ◌≢◌, ◌^◌, IsTrue, IsSome, IfSome, bit_and};
ghost use Rattle.ix_types.specs.Codes.{has_code, name_of_code, words_of, has_any, kinds as kind_rows, langs as lang_rows, roles as role_rows, props as prop_rows, relation_bits};

use crate::code_table::{name_among, push_names_of};
use crate::failures::Memory;
use crate::tables::{KINDS, LANGS, PROPS, ROLES, is_kind, is_lang};
use std::marker::Model;

/// What sort of thing a symbol is.
#[derive(Clone, Copy, Debug, PartialEq, Eq, PartialOrd, Ord)]
pub struct Kind {
    code: u32,
}

/// The language that a symbol is written in.
#[derive(Clone, Copy, Debug, PartialEq, Eq, PartialOrd, Ord)]
pub struct Lang {
    code: u32,
}

/// Roles of an occurrence in bits 0 to 8, and relations in bits 9 to 18.
#[derive(Clone, Copy, Debug, PartialEq, Eq, PartialOrd, Ord)]
pub struct Roles {
    bits: u32,
}

/// Properties of a symbol, in bits 0 to 8.
#[derive(Clone, Copy, Debug, PartialEq, Eq, PartialOrd, Ord)]
pub struct Props {
    bits: u32,
}

impl Model for Kind {
    ghost use Rattle.std.specs.Prelude.{ℕ, IsTrue};

    ghost Value = { ℕ };

    ghost view = { λ k. k.code };

    ghost use Rattle.ix_types.specs.Codes.{has_code, kinds};

    ghost invariant = { λ k. IsTrue (has_code kinds k.code) };

    ghost inverse = { λ n. record { code = n } };
}

impl Model for Lang {
    ghost use Rattle.std.specs.Prelude.{ℕ, IsTrue};

    ghost Value = { ℕ };

    ghost view = { λ l. l.code };

    ghost use Rattle.ix_types.specs.Codes.{has_code, langs};

    ghost invariant = { λ l. IsTrue (has_code langs l.code) };

    ghost inverse = { λ n. record { code = n } };
}

impl Model for Roles {
    ghost use Rattle.std.specs.Prelude.{ℕ, ◌<◌, ◌^◌};

    ghost Value = { ℕ };

    ghost view = { λ r. r.bits };

    ghost invariant = { λ r. r.bits < 2 ^ 19 };

    ghost inverse = { λ n. record { bits = n } };
}

impl Model for Props {
    ghost use Rattle.std.specs.Prelude.{ℕ, ◌<◌, ◌^◌};

    ghost Value = { ℕ };

    ghost view = { λ p. p.bits };

    ghost invariant = { λ p. p.bits < 2 ^ 9 };

    ghost inverse = { λ n. record { bits = n } };
}

impl Kind {
    /// The kind of structs.
    pub const STRUCT: Kind = Kind { code: 6 };

    /// The kind of a code; None where no kind has it.
    pub fn new(bits: u32) -> Option<Kind>
        ensures known { IsSome result ↔ IsTrue (has_code kind_rows bits) }
        ensures value { IfSome result (λ k. k ≡ bits) }
    {
        if is_kind(bits) {
            Some(Kind { code: bits })
        } else {
            None
        }
    }

    /// The code.
    pub fn bits(self) -> u32
        ensures value { result ≡ self }
        ensures known { IsTrue (has_code kind_rows result) }
    {
        self.code
    }

    /// The name of the code.
    pub fn name(self) -> &'static str
        ensures { name_of_code kind_rows self ≡ Some result.now }
    {
        match name_among(&KINDS, self.code) {
            Some(name) => name,
            None => unreachable!(),
        }
    }
}

impl Lang {
    /// Swift.
    pub const SWIFT: Lang = Lang { code: 100 };

    /// The language of a code; None where no language has it.
    pub fn new(bits: u32) -> Option<Lang>
        ensures known { IsSome result ↔ IsTrue (has_code lang_rows bits) }
        ensures value { IfSome result (λ l. l ≡ bits) }
    {
        if is_lang(bits) {
            Some(Lang { code: bits })
        } else {
            None
        }
    }

    /// The code.
    pub fn bits(self) -> u32
        ensures value { result ≡ self }
        ensures known { IsTrue (has_code lang_rows result) }
    {
        self.code
    }

    /// The name of the code.
    pub fn name(self) -> &'static str
        ensures { name_of_code lang_rows self ≡ Some result.now }
    {
        match name_among(&LANGS, self.code) {
            Some(name) => name,
            None => unreachable!(),
        }
    }
}

impl Roles {
    /// The mask of Declaration.
    pub const DECLARATION: u32 = 1;

    /// The mask of Definition.
    pub const DEFINITION: u32 = 1 << 1;

    /// The mask of Reference.
    pub const REFERENCE: u32 = 1 << 2;

    /// The mask of Read.
    pub const READ: u32 = 1 << 3;

    /// The mask of Write.
    pub const WRITE: u32 = 1 << 4;

    /// The mask of Call.
    pub const CALL: u32 = 1 << 5;

    /// The mask of Dynamic.
    pub const DYNAMIC: u32 = 1 << 6;

    /// The mask of AddressOf.
    pub const ADDRESS_OF: u32 = 1 << 7;

    /// The mask of Implicit.
    pub const IMPLICIT: u32 = 1 << 8;

    /// The mask of ChildOf.
    pub const CHILD_OF: u32 = 1 << 9;

    /// The mask of BaseOf.
    pub const BASE_OF: u32 = 1 << 10;

    /// The mask of OverrideOf.
    pub const OVERRIDE_OF: u32 = 1 << 11;

    /// The mask of ReceivedBy.
    pub const RECEIVED_BY: u32 = 1 << 12;

    /// The mask of CalledBy.
    pub const CALLED_BY: u32 = 1 << 13;

    /// The mask of ExtendedBy.
    pub const EXTENDED_BY: u32 = 1 << 14;

    /// The mask of AccessorOf.
    pub const ACCESSOR_OF: u32 = 1 << 15;

    /// The mask of ContainedBy.
    pub const CONTAINED_BY: u32 = 1 << 16;

    /// The mask of IBTypeOf.
    pub const IB_TYPE_OF: u32 = 1 << 17;

    /// The mask of SpecializationOf.
    pub const SPECIALIZATION_OF: u32 = 1 << 18;

    /// The mask of all relations.
    pub const RELATIONS: u32 = 523_776;

    /// The roles of some bits; None where a bit past 18 is set.
    pub fn new(bits: u32) -> Option<Roles>
        ensures known { IsSome result ↔ (bits < 2 ^ 19) }
        ensures value { IfSome result (λ r. r ≡ bits) }
    {
        if bits < 1 << 19 {
            Some(Roles { bits })
        } else {
            None
        }
    }

    /// The bits.
    pub fn bits(self) -> u32
        ensures value { result ≡ self }
        ensures known { result < 2 ^ 19 }
    {
        self.bits
    }

    /// Whether the two have a bit in common.
    pub fn any(self, mask: Roles) -> bool
        ensures { result ≡ has_any self mask }
    {
        self.bits & mask.bits != 0
    }

    /// Appends the names of the bits that are set, rising, with `+` between each two. After want of memory `out` is as before.
    pub fn push_names(self, out: &mut Vec<u8>) -> Result<(), Memory>
        ensures names { OnOk result (out.new.items ≡ out.old.items ++ words_of role_rows self) }
        ensures kept { OnErr result (out.new.items ≡ out.old.items) }
    {
        push_names_of(out, &ROLES, self.bits)
    }

    /// The relations alone: bits 9 to 18.
    pub fn relation_part(self) -> Roles
        ensures { result ≡ bit_and self relation_bits }
    {
        Roles {
            bits: self.bits & Roles::RELATIONS,
        }
    }
}

impl Props {
    /// The properties of some bits; None where a bit past 8 is set.
    pub fn new(bits: u32) -> Option<Props>
        ensures known { IsSome result ↔ (bits < 2 ^ 9) }
        ensures value { IfSome result (λ p. p ≡ bits) }
    {
        if bits < 1 << 9 {
            Some(Props { bits })
        } else {
            None
        }
    }

    /// The bits.
    pub fn bits(self) -> u32
        ensures value { result ≡ self }
        ensures known { result < 2 ^ 9 }
    {
        self.bits
    }

    /// Appends the names of the bits that are set, rising, with `+` between each two. After want of memory `out` is as before.
    pub fn push_names(self, out: &mut Vec<u8>) -> Result<(), Memory>
        ensures names { OnOk result (out.new.items ≡ out.old.items ++ words_of prop_rows self) }
        ensures kept { OnErr result (out.new.items ≡ out.old.items) }
    {
        push_names_of(out, &PROPS, self.bits)
    }
}
