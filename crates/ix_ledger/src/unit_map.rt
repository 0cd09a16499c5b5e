//! Units by name, with history.
ghost use Rattle.std.specs.Prelude.{◌≡◌, [], map, IfOk, option_map, option_copied};
ghost use Rattle.std.specs.List.Sorted.{IsStrictlySortedBy};
ghost use Rattle.std.specs.BTreeMap.{insert_entry, is_at};
ghost use Rattle.std.specs.Map.{remove_entry};
ghost use Rattle.ix_types.specs.Row.{text_cmp};
ghost use Rattle.ix_model.specs.Units.{NamesRise};
ghost use Rattle.ix_ledger.specs.Handles.{named_puts, led_changes, puts_led};
ghost use Rattle.ix_ledger.specs.Kept.{as_units, unit_at};

use ix_pages::{Change, Pages, laws};
use ix_types::{FileName, Memory};
use ix_unit::{UnitPut, UnitValue};
use std::alloc::Global;
use std::marker::Model;
use std::sync::Arc;

/// Units by name, each behind a handle. A new version shares with the old one all that didn't change.
#[derive(Drop)]
pub(crate) struct UnitMap {
    pages: Pages<FileName, Arc<UnitValue>, 64>,
}

impl Model for UnitMap {
    ghost use Rattle.ix_pages.specs.Paging.{pairs_of};
    ghost use Rattle.ix_ledger.specs.Handles.{handed};
    ghost use Rattle.ix_ledger.specs.Kept.{Named};

    ghost Value = { Named };

    ghost view = { λ m. handed (pairs_of m.pages) };
}

impl UnitMap {
    /// No units. Takes no memory.
    pub(crate) fn empty() -> UnitMap
        ensures { result ≡ [] }
    {
        UnitMap {
            pages: Pages::empty(),
        }
    }

    /// The units that were put, in one go.
    pub(crate) fn of_puts(alloc: Global, puts: &[UnitPut]) -> Result<UnitMap, Memory>
        requires { IsStrictlySortedBy text_cmp (map (λ put. put.name) puts.now) }
        ensures { IfOk result (λ units. units ≡ named_puts puts.now) }
    {
        let none: Pages<FileName, Arc<UnitValue>, 64> = Pages::empty();
        let changes = changes_of(alloc, puts)?;
        let pages = none.with_all(alloc, changes)?;
        Ok(UnitMap { pages })
    }

    /// The unit of a name; None exactly where there is none: one look-up. Takes no memory.
    pub(crate) fn get(&self, name: &FileName) -> Option<&Arc<UnitValue>>
        ensures { option_map (λ unit. unit.value) (option_copied result) ≡ unit_at name.now self.now }
    {
        self.pages.get(name)
    }

    /// The names rise. Does nothing at run time but look at the number of units.
    pub(crate) fn names_rise(&self)
        ensures { NamesRise (as_units self.now) }
    {
        let _pages = self.pages.len();
    }

    /// The units with the one of a name put there, in place of an earlier one. These stay.
    pub(crate) fn with(
        &self,
        alloc: Global,
        name: FileName,
        unit: &Arc<UnitValue>,
    ) -> Result<UnitMap, Memory>
        ensures { IfOk result (λ after. after ≡ insert_entry text_cmp self.now name unit.now.value) }
    {
        laws::pages_are_the_pairs::<FileName, Arc<UnitValue>>();
        let _pages = self.pages.len();
        let handle = Arc::try_clone(unit)?;
        let pages = self.pages.with(alloc, name, handle)?;
        Ok(UnitMap { pages })
    }

    /// The units without the one of a name. These stay.
    pub(crate) fn without(&self, alloc: Global, name: &FileName) -> Result<UnitMap, Memory>
        ensures { IfOk result (λ after. after ≡ remove_entry (is_at (text_cmp name.now)) self.now) }
    {
        laws::pages_are_the_pairs::<FileName, Arc<UnitValue>>();
        let _pages = self.pages.len();
        let pages = self.pages.without(alloc, name)?;
        Ok(UnitMap { pages })
    }
}

/// The changes that put the units into an empty map.
fn changes_of(
    alloc: Global,
    puts: &[UnitPut],
) -> Result<Vec<Change<FileName, Arc<UnitValue>>>, Memory>
    ensures { IfOk result (λ changes. led_changes changes.items ≡ puts_led puts.now) }
{
    let mut changes = Vec::with_capacity(alloc, puts.len())?;
    for put in puts {
        let handle = Arc::try_clone(&put.unit)?;
        changes.push(Change::Put(put.name, handle))?;
    }
    Ok(changes)
}
