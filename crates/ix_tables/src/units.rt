//! The units of a version, and what look-ups find by their paths.
ghost use Rattle.std.specs.Prelude.{◌≡◌, [], IfOk};
ghost use Rattle.std.specs.List.{flat_map};
ghost use Rattle.ix_outline.specs.Balance.{Balances};
ghost use Rattle.ix_outline.specs.Facts.{placing, pathing, listing_facts};
ghost use Rattle.ix_outline.specs.Finding.{values_under};
ghost use Rattle.ix_outline.specs.Moving.{lists_name};

use crate::gives::{Listing, Pathing, Placing, revised};
use crate::laws;
use crate::map::Map;
use crate::mover::Mover;
use ix_index::Index;
use ix_types::{FileName, Memory, Text};
use ix_unit::UnitValue;
use std::alloc::Global;
use std::marker::Model;

/// Units by name with an index for each look-up of paths, seen as the list of names and units.
#[derive(Drop)]
pub(crate) struct UnitTables {
    map: Map<UnitValue>,
    in_path: Index<Text, FileName, 64>,
    paths: Index<FileName, Text, 64>,
    listing: Index<Text, FileName, 64>,
}

impl Model for UnitTables {
    ghost use Rattle.std.specs.Prelude.{List, ℕ};
    ghost use Rattle.ix_unit.specs.declared.value.UnitValue.{UnitValue};
    ghost use Rattle.ix_tables.specs.Kept.{AreUnitTables};

    ghost Value = { List (List ℕ × UnitValue) };

    ghost view = { λ tables. tables.map };

    ghost invariant = { λ tables. AreUnitTables tables.map tables.in_path tables.paths tables.listing };
}

impl UnitTables {
    /// Of no units. Takes no memory.
    pub(crate) fn empty() -> UnitTables
        ensures { result ≡ [] }
    {
        UnitTables {
            map: Map::empty(),
            in_path: Index::empty(),
            paths: Index::empty(),
            listing: Index::empty(),
        }
    }

    /// The same once more.
    pub(crate) fn share(&self) -> Result<UnitTables, Memory>
        ensures { IfOk result (λ same. same ≡ self.now) }
    {
        Ok(UnitTables {
            map: self.map.share()?,
            in_path: self.in_path.share()?,
            paths: self.paths.share()?,
            listing: self.listing.share()?,
        })
    }

    /// The units themselves.
    pub(crate) fn map(&self) -> &Map<UnitValue>
        ensures { result.now ≡ self.now }
    {
        &self.map
    }

    /// After units came and went.
    pub(crate) fn after(
        &self,
        alloc: Global,
        mover: &Mover<UnitValue>,
    ) -> Result<UnitTables, Memory>
        requires { Balances self.now mover.now.entries mover.now.gained mover.now.lost }
        ensures { IfOk result (λ after. after ≡ mover.now.entries) }
    {
        let current = mover.map();
        let _rising = current.len();
        let map = current.share()?;
        let in_path = revised::<UnitValue, Text, FileName, Placing>(alloc, &self.in_path, mover)?;
        let paths = revised::<UnitValue, FileName, Text, Pathing>(alloc, &self.paths, mover)?;
        let listing = revised::<UnitValue, Text, FileName, Listing>(alloc, &self.listing, mover)?;
        Ok(UnitTables {
            map,
            in_path,
            paths,
            listing,
        })
    }

    /// The records that are listed under a path.
    pub(crate) fn in_path(&self, path: &Text) -> &[FileName]
        ensures { result.now ≡ values_under path.now (flat_map placing self.now) }
    {
        laws::an_index_finds_what_facts_give();
        self.in_path.values(path)
    }

    /// The paths under which a record is listed.
    pub(crate) fn paths(&self, name: &FileName) -> &[Text]
        ensures { result.now ≡ values_under name.now (flat_map pathing self.now) }
    {
        laws::an_index_finds_what_facts_give();
        self.paths.values(name)
    }

    /// The units that list a path.
    pub(crate) fn listing(&self, path: &Text) -> &[FileName]
        ensures { result.now ≡ values_under path.now (flat_map listing_facts self.now) }
    {
        laws::an_index_finds_what_facts_give();
        self.listing.values(path)
    }

    /// Whether a unit lists a record of the name.
    pub(crate) fn lists(&self, name: &FileName) -> bool
        ensures { result ≡ lists_name self.now name.now }
    {
        ix_outline::laws::what_is_given_is_what_look_ups_find();
        !self.paths(name).is_empty()
    }
}
