//! Publications, and the units that are visible after some of them.
ghost use Rattle.std.specs.Prelude.{◌≡◌, IfOk, OnOk};
ghost use Rattle.ix_model.specs.Units.{changed, units_at};

use ix_record::RecordValue;
use ix_types::{FileName, Memory, Seq};
use ix_unit::UnitValue;
use std::alloc::Global;
use std::collections::BTreeMap;

/// A unit, and the values of its records in the order of its record dependencies.
#[derive(Debug, Drop, PartialEq, Eq)]
pub struct StoredUnit {
    pub unit: UnitValue,
    pub values: Seq<RecordValue>,
}

/// One change of the visible units.
#[derive(Debug, Drop, PartialEq, Eq)]
pub enum Publication {
    /// A unit comes, in the place of an earlier one of its name.
    Put { name: FileName, unit: StoredUnit },
    /// The unit of a name goes.
    Gone { name: FileName },
}

/// The units after the first publications, as many as the mark.
pub fn units_at(
    alloc: Global,
    mut publications: Vec<Publication>,
    mark: u64,
) -> Result<BTreeMap<FileName, StoredUnit>, Memory>
    ensures { IfOk result (λ map. map.entries ≡ units_at publications.items mark) }
{
    publications.truncate(mark as usize);
    let mut units = BTreeMap::new(alloc);
    for publication in publications {
        change(&mut units, publication)?;
    }
    Ok(units)
}

/// Makes one more change of the units.
pub fn change(
    units: &mut BTreeMap<FileName, StoredUnit>,
    publication: Publication,
) -> Result<(), Memory>
    ensures { OnOk result (units.new.entries ≡ changed units.old.entries publication) }
{
    match publication {
        Publication::Put { name, unit } => {
            if units.insert(name, unit).is_err() {
                return Err(Memory);
            }
        }
        Publication::Gone { name } => {
            units.remove(&name);
        }
    }
    Ok(())
}
