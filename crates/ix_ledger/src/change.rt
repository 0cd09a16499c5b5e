//! A change of the visible units, made ready.
ghost use Rattle.std.specs.Prelude.{◌≡◌, ◌+◌, [], map, length, Some, None, IfOk};
ghost use Rattle.std.specs.BTreeMap.{insert_entry, is_at};
ghost use Rattle.std.specs.List.Sorted.{IsStrictlySortedBy};
ghost use Rattle.std.specs.Map.{remove_entry};
ghost use Rattle.ix_types.specs.Row.{text_cmp};
ghost use Rattle.ix_guard.specs.Listing.{need_list_of};
ghost use Rattle.ix_ledger.specs.Kept.{as_units, unit_at};
ghost use Rattle.ix_ledger.specs.Handles.{named_puts};

use crate::unit_map::UnitMap;
use ix_guard::NeedList;
use ix_types::{FileName, Memory};
use ix_unit::{UnitPut, UnitValue};
use std::alloc::Global;
use std::marker::Model;
use std::sync::Arc;

/// Units by name, what they need, and the number of publications that led to them.
#[derive(Drop)]
pub struct Change {
    units: UnitMap,
    needs: NeedList,
    published: u64,
}

impl Model for Change {
    ghost use Rattle.std.specs.Prelude.{◌≡◌};
    ghost use Rattle.ix_guard.specs.Listing.{need_list_of};
    ghost use Rattle.ix_ledger.specs.Effects.{Changed};
    ghost use Rattle.ix_ledger.specs.Kept.{as_units};

    ghost Value = { Changed };

    ghost view = { λ c. record { units = c.units; published = c.published } };

    ghost invariant = { λ c. c.needs ≡ need_list_of (as_units c.units) };
}

/// The next number of publications. No store comes to the greatest u64: that is answered as want of memory.
fn one_more(published: u64) -> Result<u64, Memory>
    ensures { IfOk result (λ more. more ≡ published + 1) }
{
    published.checked_add(1).ok_or(Memory)
}

impl Change {
    /// No publications, and no units. Takes no memory.
    pub(crate) fn none() -> Change
        ensures { result ≡ record { units = []; published = 0 } }
    {
        let units = UnitMap::empty();
        let needs = NeedList::empty();
        Change {
            units,
            needs,
            published: 0,
        }
    }

    /// The units, what they need, and the number of publications. Takes no memory.
    pub(crate) fn into_parts(self) -> (UnitMap, NeedList, u64)
        ensures units { result.0 ≡ self.units }
        ensures needs { result.1 ≡ need_list_of (as_units self.units) }
        ensures published { result.2 ≡ self.published }
    {
        let Change {
            units,
            needs,
            published,
        } = self;
        (units, needs, published)
    }

    /// The next publication: a unit comes whose name has none. The units, what they need and their number are handed in.
    pub(crate) fn with_new(
        alloc: Global,
        units: &UnitMap,
        needs: &NeedList,
        published: u64,
        name: FileName,
        unit: &Arc<UnitValue>,
    ) -> Result<Change, Memory>
        requires needs { needs.now ≡ need_list_of (as_units units.now) }
        requires new { unit_at name units.now ≡ None }
        ensures { IfOk result (λ change. change ≡ record { units = insert_entry text_cmp units.now name unit.now.value; published = published + 1 }) }
    {
        let published = one_more(published)?;
        let needs = needs.with_unit(alloc, unit)?;
        let units = units.with(alloc, name, unit)?;
        Ok(Change {
            units,
            needs,
            published,
        })
    }

    /// The same, in the place of the unit that the name has.
    pub(crate) fn with_replaced(
        alloc: Global,
        units: &UnitMap,
        needs: &NeedList,
        published: u64,
        name: FileName,
        old: &Arc<UnitValue>,
        unit: &Arc<UnitValue>,
    ) -> Result<Change, Memory>
        requires needs { needs.now ≡ need_list_of (as_units units.now) }
        requires old { unit_at name units.now ≡ Some old.now.value }
        ensures { IfOk result (λ change. change ≡ record { units = insert_entry text_cmp units.now name unit.now.value; published = published + 1 }) }
    {
        units.names_rise();
        let published = one_more(published)?;
        let needs = needs.with_unit_replaced(alloc, old, unit)?;
        let units = units.with(alloc, name, unit)?;
        Ok(Change {
            units,
            needs,
            published,
        })
    }

    /// The next publication: the unit of a name goes.
    pub(crate) fn without(
        alloc: Global,
        units: &UnitMap,
        needs: &NeedList,
        published: u64,
        name: FileName,
        old: &Arc<UnitValue>,
    ) -> Result<Change, Memory>
        requires needs { needs.now ≡ need_list_of (as_units units.now) }
        requires old { unit_at name units.now ≡ Some old.now.value }
        ensures { IfOk result (λ change. change ≡ record { units = remove_entry (is_at (text_cmp name)) units.now; published = published + 1 }) }
    {
        let published = one_more(published)?;
        let needs = needs.without_unit(alloc, old)?;
        let units = units.without(alloc, &name)?;
        Ok(Change {
            units,
            needs,
            published,
        })
    }

    /// One publication for each unit that was found, in their order.
    pub(crate) fn of_found(alloc: Global, found: &[UnitPut]) -> Result<Change, Memory>
        requires { IsStrictlySortedBy text_cmp (map (λ put. put.name) found.now) }
        ensures { IfOk result (λ change. change ≡ record { units = named_puts found.now; published = length found.now }) }
    {
        let units = UnitMap::of_puts(alloc, found)?;
        let needs = NeedList::of_puts(alloc, found)?;
        Ok(Change {
            units,
            needs,
            published: found.len() as u64,
        })
    }
}
