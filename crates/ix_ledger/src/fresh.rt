//! Which records a scan has to load.
ghost use Rattle.std.specs.Prelude.{◌≡◌, ◌∷◌, [], false, filter, IfOk, OnOk};
ghost use Rattle.std.specs.Map.{keys_of};
ghost use Rattle.std.specs.BTreeMap.{keys, insert_entry};
ghost use Rattle.ix_types.specs.Row.{text_cmp};
ghost use Rattle.ix_guard.specs.Listing.{names_in};
ghost use Rattle.ix_ledger.specs.Fresh.{lacks, names_put, with_names, fresh_of};

use crate::ledger::Ledger;
use ix_guard::NeedList;
use ix_types::{FileName, Memory, Seq};
use ix_unit::{UnitPut, UnitValue};
use std::alloc::{AllocError, Global};
use std::collections::BTreeMap;

impl Ledger {
    /// The names of the records of some units that the current version doesn't need, rising, without repeats.
    pub fn fresh(&self, alloc: Global, puts: &Seq<UnitPut>) -> Result<Seq<FileName>, Memory>
        ensures { IfOk result (λ names. names ≡ fresh_of self.now.kept.guard.current puts.now) }
    {
        let names = lacking(alloc, self.register.current_needs(), puts.as_slice())?;
        let listed = listed(alloc, &names)?;
        Ok(Seq::of(listed))
    }
}

/// The names of the records of the units that the need list lacks.
fn lacking(
    alloc: Global,
    needs: &NeedList,
    puts: &[UnitPut],
) -> Result<BTreeMap<FileName, bool>, Memory>
    ensures { IfOk result (λ names. keys_of names.entries ≡ fresh_of needs.now puts.now) }
{
    let mut names = BTreeMap::new(alloc);
    for put in puts {
        note_unit(&mut names, needs, &put.unit)?;
    }
    Ok(names)
}

/// Adds those of a unit.
fn note_unit(
    names: &mut BTreeMap<FileName, bool>,
    needs: &NeedList,
    unit: &UnitValue,
) -> Result<(), Memory>
    ensures { OnOk result (keys_of names.new.entries ≡ with_names (keys_of names.old.entries) (filter (lacks needs.now) (names_in unit.now))) }
{
    for dep in unit.records.as_slice() {
        note_name(names, needs, dep.name)?;
    }
    Ok(())
}

/// Adds a name, where the need list lacks it.
fn note_name(
    names: &mut BTreeMap<FileName, bool>,
    needs: &NeedList,
    name: FileName,
) -> Result<(), Memory>
    ensures { OnOk result (keys_of names.new.entries ≡ with_names (keys_of names.old.entries) (filter (lacks needs.now) (name ∷ []))) }
{
    if needs.needs(name) {
        return Ok(());
    }
    insert_name(names, name)?;
    Ok(())
}

/// Adds a name.
fn insert_name(names: &mut BTreeMap<FileName, bool>, name: FileName) -> Result<(), Memory>
    ensures { OnOk result (names.new.entries ≡ insert_entry text_cmp names.old.entries name false) }
{
    if names.insert(name, false).is_err() {
        return Err(Memory);
    }
    Ok(())
}

/// The names, rising.
fn listed(alloc: Global, names: &BTreeMap<FileName, bool>) -> Result<Vec<FileName>, AllocError>
    ensures { IfOk result (λ listed. listed.items ≡ keys names.now) }
{
    names.keys().copied().collect(alloc)
}
