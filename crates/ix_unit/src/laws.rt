//! Laws of unit files. The functions do nothing: their contracts are the laws.
ghost use Rattle.ix_unit.specs.Laws.{FaultWhereNothingIsSpelled, OneSpelling, OneValue, ShortWhereCut};

/// Bytes have a fault exactly where they spell no value.
pub fn fault_where_nothing_is_spelled()
    ensures { FaultWhereNothingIsSpelled }
{}

/// A value has one spelling.
pub fn one_spelling()
    ensures { OneSpelling }
{}

/// A spelling has one value.
pub fn one_value()
    ensures { OneValue }
{}

/// Of each proper front of a unit file the fault is that it is short.
pub fn short_where_cut()
    ensures { ShortWhereCut }
{}
