//! Laws of record files. The functions do nothing: their contracts are the laws.
ghost use Rattle.ix_record.specs.Laws.{FaultWhereNothingIsSpelled, OneFormat, OneSpelling, OneValue, ShortWhereCut, WholeWhereNoFault};

/// Bytes have a fault exactly where they spell no value.
pub fn fault_where_nothing_is_spelled()
    ensures { FaultWhereNothingIsSpelled }
{}

/// A value has one spelling.
pub fn one_spelling()
    ensures { OneSpelling }
{}

/// A spelling has one value.
pub fn one_value()
    ensures { OneValue }
{}

/// No bytes spell a value of format One and one of format Two.
pub fn one_format()
    ensures { OneFormat }
{}

/// Of each proper front of a record file the fault is that it is short.
pub fn short_where_cut()
    ensures { ShortWhereCut }
{}

/// A record file is whole exactly where its name is that of its bytes, and these have no fault.
pub fn whole_where_no_fault()
    ensures { WholeWhereNoFault }
{}
