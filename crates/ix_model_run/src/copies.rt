//! Publications once more, with all that is in them.
ghost use Rattle.std.specs.Prelude.{◌≡◌, IfOk};

use ix_model::{Publication, StoredUnit};
use ix_record::{Occurrence, RecordValue, Relation, Symbol};
use ix_types::{Memory, Seq, Text};
use ix_unit::{FileDep, Include, RecordDep, UnitValue};
use std::alloc::Global;

/// What can be made once more.
pub(crate) trait Copied: Drop {
    /// The same once more.
    fn copied(&self, alloc: Global) -> Result<Self, Memory>
        ensures { IfOk result (λ copy. copy ≡ self.now) };
}

/// The items once more.
pub(crate) fn copied_all<T: Copied>(alloc: Global, items: &[T]) -> Result<Vec<T>, Memory>
    ensures { IfOk result (λ copy. copy.items ≡ items.now) }
{
    let mut copy = Vec::new(alloc);
    for item in items {
        copy.push(item.copied(alloc)?)?;
    }
    Ok(copy)
}

/// The list once more.
fn copied_list<T: Copied>(alloc: Global, list: &Seq<T>) -> Result<Seq<T>, Memory>
    ensures { IfOk result (λ copy. copy ≡ list.now) }
{
    Ok(Seq::of(copied_all(alloc, list.as_slice())?))
}

impl Copied for Text {
    fn copied(&self, _alloc: Global) -> Result<Text, Memory> {
        let copy = self.clone()?;
        Ok(copy)
    }
}

impl Copied for RecordDep {
    fn copied(&self, _alloc: Global) -> Result<RecordDep, Memory> {
        Ok(RecordDep {
            path: self.path.clone()?,
            system: self.system,
            name: self.name,
        })
    }
}

impl Copied for FileDep {
    fn copied(&self, _alloc: Global) -> Result<FileDep, Memory> {
        Ok(FileDep {
            path: self.path.clone()?,
            system: self.system,
        })
    }
}

impl Copied for Include {
    fn copied(&self, _alloc: Global) -> Result<Include, Memory> {
        Ok(Include {
            from: self.from.clone()?,
            line: self.line,
            to: self.to.clone()?,
        })
    }
}

impl Copied for UnitValue {
    fn copied(&self, alloc: Global) -> Result<UnitValue, Memory> {
        Ok(UnitValue {
            output: self.output.clone()?,
            main_file: self.main_file.clone()?,
            module_name: self.module_name.clone()?,
            system: self.system,
            units: copied_list(alloc, &self.units)?,
            records: copied_list(alloc, &self.records)?,
            files: copied_list(alloc, &self.files)?,
            includes: copied_list(alloc, &self.includes)?,
        })
    }
}

impl Copied for Symbol {
    fn copied(&self, _alloc: Global) -> Result<Symbol, Memory> {
        Ok(Symbol {
            kind: self.kind,
            lang: self.lang,
            props: self.props,
            usr: self.usr.clone()?,
            name: self.name.clone()?,
            codegen: self.codegen.clone()?,
        })
    }
}

impl Copied for Relation {
    fn copied(&self, _alloc: Global) -> Result<Relation, Memory> {
        Ok(Relation {
            symbol: self.symbol,
            roles: self.roles,
        })
    }
}

impl Copied for Occurrence {
    fn copied(&self, alloc: Global) -> Result<Occurrence, Memory> {
        Ok(Occurrence {
            line: self.line,
            column: self.column,
            symbol: self.symbol,
            roles: self.roles,
            relations: copied_list(alloc, &self.relations)?,
        })
    }
}

impl Copied for RecordValue {
    fn copied(&self, alloc: Global) -> Result<RecordValue, Memory> {
        Ok(RecordValue {
            format: self.format,
            symbols: copied_list(alloc, &self.symbols)?,
            occurrences: copied_list(alloc, &self.occurrences)?,
        })
    }
}

impl Copied for StoredUnit {
    fn copied(&self, alloc: Global) -> Result<StoredUnit, Memory> {
        Ok(StoredUnit {
            unit: self.unit.copied(alloc)?,
            values: copied_list(alloc, &self.values)?,
        })
    }
}

impl Copied for Publication {
    fn copied(&self, alloc: Global) -> Result<Publication, Memory> {
        match self {
            Publication::Put { name, unit } => Ok(Publication::Put {
                name: *name,
                unit: unit.copied(alloc)?,
            }),
            Publication::Gone { name } => Ok(Publication::Gone { name: *name }),
        }
    }
}
