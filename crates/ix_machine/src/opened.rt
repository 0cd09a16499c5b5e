//! What opening finds of a directory.
use ix_record::{Body, RecordValue};
use ix_types::{FileName, Seq};
use ix_unit::UnitValue;
use std::sync::Arc;

/// A unit under its name, and the values of its records in the order of its record dependencies.
#[derive(Debug, Drop)]
pub struct StoredUnit {
    pub name: FileName,
    pub unit: Arc<UnitValue>,
    pub values: Seq<Arc<RecordValue>>,
}

/// The sound units and the refused ones, both rising by name, and the record files.
#[derive(Debug, Drop)]
pub struct Opened {
    pub units: Seq<StoredUnit>,
    pub refused: Seq<Refused>,
    pub records: Seq<Body>,
}

/// A unit file that opening refuses.
#[derive(Clone, Copy, Debug, PartialEq, Eq)]
pub struct Refused {
    pub name: FileName,
    pub cause: UnitFault,
}

/// Why a unit file is refused: the first of these, in this order. A place is the number of bytes before it.
#[derive(Clone, Copy, Debug, PartialEq, Eq)]
pub enum UnitFault {
    /// The first four bytes are other than those of a unit file.
    Magic,
    /// Fewer bytes are left than a field needs.
    Short,
    /// The field at `at` has a value that isn't allowed.
    Field { at: u64 },
    /// The dependency or include at `at` isn't greater than the one before.
    Order { at: u64 },
    /// Bytes are left from `at` on.
    Trailing { at: u64 },
    /// The last 32 bytes aren't the digest of those before them.
    Digest,
    /// The name isn't that of the unit's output path.
    WrongName,
    /// The record of this name isn't there.
    RecordMissing { name: FileName },
    /// The record of this name isn't what its name says.
    RecordDamaged { name: FileName },
}
