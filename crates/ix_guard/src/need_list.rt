//! The list of the records that some units need.
ghost use Rattle.std.specs.Prelude.{◌≡◌, ℕ, List, [], Some, None, IfOk};
ghost use Rattle.ix_model.specs.declared.publication.StoredUnit.{StoredUnit};
ghost use Rattle.ix_model.specs.declared.publication.Publication.TheVariants.{Put, Gone};
ghost use Rattle.ix_model.specs.Units.{Units, changed, unit_named, NamesRise};
ghost use Rattle.ix_machine.specs.Needs.{has_name};
ghost use Rattle.ix_guard.specs.Counts.{names_of, AreCounts, Gains, Loses};
ghost use Rattle.ix_guard.specs.Listing.{names_in, units_put, need_list_of};

use crate::laws;
use crate::recount::{Counts, lower_all, raise_all};
use crate::tally::counts_of;
use ix_pages::Pages;
use ix_types::{FileName, Memory};
use ix_unit::{UnitPut, UnitValue};
use std::alloc::Global;
use std::marker::Model;

/// The names of the records that some units need, rising, each with the number of record dependencies that need it.
#[derive(Drop)]
pub struct NeedList {
    counts: Counts,
}

impl Model for NeedList {
    ghost use Rattle.std.specs.Prelude.{List, ℕ};
    ghost use Rattle.ix_pages.specs.Paging.{pairs_of};
    ghost use Rattle.ix_guard.specs.Counts.{AreCountPages};

    ghost Value = { List (List ℕ × ℕ) };

    ghost view = { λ list. pairs_of list.counts };

    ghost invariant = { λ list. AreCountPages list.counts };
}

impl NeedList {
    /// What no unit needs: nothing. Takes no memory.
    pub fn empty() -> NeedList
        ensures { result ≡ [] }
    {
        NeedList {
            counts: Pages::empty(),
        }
    }

    /// What units need that were put, made in one go.
    pub fn of_puts(alloc: Global, puts: &[UnitPut]) -> Result<NeedList, Memory>
        ensures { IfOk result (λ list. list ≡ need_list_of (units_put puts.now)) }
    {
        laws::need_lists_are_exact();
        let counts = counts_of(alloc, puts)?;
        Ok(NeedList { counts })
    }

    /// The list after a unit came: from the need list of any units without it to that of these with it. This one stays.
    pub fn with_unit(&self, alloc: Global, unit: &UnitValue) -> Result<NeedList, Memory>
        ensures gains { IfOk result (Gains (names_in unit.now) self.now) }
        ensures follows { IfOk result (λ after. (units : Units) (name : List ℕ) (stored : StoredUnit) → stored.unit ≡ unit.now
            → unit_named name units ≡ None → self.now ≡ need_list_of units → after ≡ need_list_of (changed units (Put name stored))) }
    {
        laws::need_lists_are_exact();
        let counts = raise_all(alloc, &self.counts, unit.records.as_slice())?;
        Ok(NeedList { counts })
    }

    /// The list after a unit went: from the need list of any units with it to that of these without it. This one stays.
    pub fn without_unit(&self, alloc: Global, unit: &UnitValue) -> Result<NeedList, Memory>
        ensures loses { IfOk result (Loses (names_in unit.now) self.now) }
        ensures follows { IfOk result (λ after. (units : Units) (name : List ℕ) (stored : StoredUnit) → stored.unit ≡ unit.now
            → unit_named name units ≡ Some stored → self.now ≡ need_list_of units → after ≡ need_list_of (changed units (Gone name))) }
    {
        laws::need_lists_are_exact();
        let counts = lower_all(alloc, &self.counts, unit.records.as_slice())?;
        Ok(NeedList { counts })
    }

    /// The list after a unit came in the place of another. This one stays.
    pub fn with_unit_replaced(
        &self,
        alloc: Global,
        old: &UnitValue,
        new: &UnitValue,
    ) -> Result<NeedList, Memory>
        ensures { IfOk result (λ after. (units : Units) (name : List ℕ) (earlier later : StoredUnit) → earlier.unit ≡ old.now → later.unit ≡ new.now
            → NamesRise units → unit_named name units ≡ Some earlier → self.now ≡ need_list_of units → after ≡ need_list_of (changed units (Put name later))) }
    {
        laws::need_lists_are_exact();
        let rest = self.without_unit(alloc, old)?;
        rest.with_unit(alloc, new)
    }

    /// Whether one of the units needs the record of a name: one look-up. Takes no memory.
    pub fn needs(&self, name: FileName) -> bool
        ensures needs { result ≡ has_name name (names_of self.now) }
        ensures counts { AreCounts self.now }
    {
        match self.counts.get(&name) {
            None => false,
            Some(_) => true,
        }
    }

    /// The same list once more, at no cost that grows. Takes no memory: an error comes only where the list has 2^63 - 1
    /// handles.
    pub fn share(&self) -> Result<NeedList, Memory>
        ensures { IfOk result (λ same. same ≡ self.now) }
    {
        let counts = self.counts.share()?;
        Ok(NeedList { counts })
    }
}
