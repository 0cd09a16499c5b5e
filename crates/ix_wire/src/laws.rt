//! Laws of the spellings and of reading them. The functions do nothing: their contracts are the laws.
ghost use Rattle.std.specs.Prelude.{◌^◌, ◌≡◌, ◌≢◌, Bool, List, ℕ, Ok, Err};
ghost use Rattle.ix_wire.specs.declared.fault.WireError.{WireError};
ghost use Rattle.ix_wire.specs.declared.fault.WireError.TheVariants.{Short};
ghost use Rattle.ix_wire.specs.Fronts.{FieldReadsFronts, with_more};
ghost use Rattle.ix_wire.specs.Input.{Input};
ghost use Rattle.ix_wire.specs.Laws.{IsReadWhereSpelled, TextIsReadWhereSpelled, BeginsNoOther, TextBeginsNoOther, PassesJoin, PassesSplit, PassesBytes, RisingNumbersAreRead, FallenNumberIsRefused};
ghost use Rattle.ix_wire.specs.Read.{Read};
ghost use Rattle.ix_wire.specs.Reading.{u32_at, u64_at, text_at};
ghost use Rattle.ix_wire.specs.Spelling.{IsBytes, u32_bytes, u64_bytes};

/// A u32 is read where it is spelled, whatever follows, and what is read was spelled there.
pub fn u32_is_read_where_spelled()
    ensures { IsReadWhereSpelled u32_at u32_bytes (2 ^ 32) }
{}

/// A u64 is read where it is spelled, whatever follows, and what is read was spelled there.
pub fn u64_is_read_where_spelled()
    ensures { IsReadWhereSpelled u64_at u64_bytes (2 ^ 64) }
{}

/// A text is read where it is spelled, whatever follows, and what is read was spelled there.
pub fn text_is_read_where_spelled()
    ensures { TextIsReadWhereSpelled }
{}

/// No spelling of a u32 begins another.
pub fn u32_begins_no_other()
    ensures { BeginsNoOther u32_bytes (2 ^ 32) }
{}

/// No spelling of a u64 begins another.
pub fn u64_begins_no_other()
    ensures { BeginsNoOther u64_bytes (2 ^ 64) }
{}

/// No spelling of a text begins another.
pub fn text_begins_no_other()
    ensures { TextBeginsNoOther }
{}

/// Two fields, one after the other, are the joined field.
pub fn passes_join()
    ensures { PassesJoin }
{}

/// Between two fields there is a place.
pub fn passes_split()
    ensures { PassesSplit }
{}

/// What is left of bytes is bytes.
pub fn passes_bytes()
    ensures { PassesBytes }
{}

/// Of a front of the bytes a u32 is read as of all of them, or the front is too short for it.
pub fn u32_is_short_or_same()
    ensures { FieldReadsFronts u32_at }
{}

/// Of a front of the bytes a u64 is read as of all of them, or the front is too short for it.
pub fn u64_is_short_or_same()
    ensures { FieldReadsFronts u64_at }
{}

/// Of a front of the bytes a text is read as of all of them, or the front is too short for it.
pub fn text_is_short_or_same()
    ensures { (may_be_empty : Bool) → FieldReadsFronts (text_at may_be_empty) }
{}

/// So many items that rise strictly are read where they stand, and no other list is.
pub fn rising_numbers_are_read()
    ensures { RisingNumbersAreRead }
{}

/// An item that isn't greater than the one before is refused at its start.
pub fn a_fallen_number_is_refused()
    ensures { FallenNumberIsRefused }
{}

/// The bytes of a slice are bytes, as the laws want them.
pub fn a_slice_has_bytes(bytes: &[u8])
    ensures { IsBytes bytes.now }
{
    let _len = bytes.len();
}

/// What is read of a front is read of all of the bytes, and a fault other than want of bytes is the fault of all of them.
pub fn what_a_front_answers_stays()
    ensures read { (read : Input → Read WireError ℕ) (more : List ℕ) (from to : Input) (n : ℕ) → FieldReadsFronts read → read from ≡ Ok (n, to) → read (with_more more from) ≡ Ok (n, with_more more to) }
    ensures refused { (read : Input → Read WireError ℕ) (more : List ℕ) (from : Input) (e : WireError) → FieldReadsFronts read → e ≢ Short from.at → read from ≡ Err e → read (with_more more from) ≡ Err e }
{}
