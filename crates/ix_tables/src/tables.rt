//! The tables of a version.
ghost use Rattle.std.specs.Prelude.{◌≡◌, [], option_copied, option_map, IfOk};
ghost use Rattle.ix_types.specs.Row.{text_cmp};
ghost use Rattle.ix_model.specs.Units.{Units};
ghost use Rattle.ix_answers.specs.Batches.{unit_of};
ghost use Rattle.ix_answers.specs.Lookups.{providers, related, named, coded, in_path, paths, listing, name_at, unit_at};
ghost use Rattle.ix_lookups.specs.Found.{found_in};
ghost use Rattle.ix_pages.specs.Pairs.{look_up};
ghost use Rattle.ix_outline.specs.Following.{Follows, known_after};
ghost use Rattle.ix_outline.specs.Known.{nothing_known, AreTables, bare};
ghost use Rattle.std.specs.Map.Iter.{deref_pair};
ghost use Rattle.ix_tables.specs.Looking.{found_of};

use crate::moves::{outlines_moved, touched, units_moved};
use crate::outlines::Outlines;
use crate::records::RecordTables;
use crate::units::UnitTables;
use ix_lookups::Lookups;
use ix_outline::laws;
use ix_types::{FileName, Memory, Text};
use ix_unit::{Batch, UnitValue};
use std::alloc::Global;
use std::marker::Model;

/// The units of a version and the outlines of the records that they list, with an index for each look-up.
#[derive(Drop)]
pub struct Tables {
    units: UnitTables,
    records: RecordTables,
}

impl Model for Tables {
    ghost use Rattle.ix_outline.specs.Known.{Known};

    ghost Value = { Known };

    ghost view = { λ tables. record { units = tables.units; outlines = tables.records } };
}

/// Tables, and the mark of the units that they are of.
#[derive(Drop)]
pub struct Version {
    pub number: u64,
    pub tables: Tables,
}

impl Tables {
    /// Of no units. Takes no memory.
    pub fn empty() -> Tables
        ensures known { result ≡ nothing_known }
        ensures tables { AreTables [] result }
    {
        laws::tables_follow_a_batch();
        Tables {
            units: UnitTables::empty(),
            records: RecordTables::empty(),
        }
    }

    /// The same tables once more, at no cost that grows. Takes no memory: an error comes only where there are 2^63 - 1 handles.
    pub fn share(&self) -> Result<Tables, Memory>
        ensures { IfOk result (λ same. same ≡ self.now) }
    {
        let units = self.units.share()?;
        let records = self.records.share()?;
        Ok(Tables { units, records })
    }

    /// After a batch. These tables stay.
    fn applied(&self, alloc: Global, batch: &Batch, bodies: &Outlines) -> Result<Tables, Memory>
        ensures { IfOk result (λ after. after ≡ known_after batch.now.puts batch.now.gone bodies.now self.now) }
    {
        laws::what_moves_balances();
        let _units = self.units.map().len();
        let _outlines = self.records.map().len();
        let moved = units_moved(
            alloc,
            self.units.map(),
            batch.puts.as_slice(),
            batch.gone.as_slice(),
        )?;
        let units = self.units.after(alloc, &moved)?;
        let names = touched(alloc, &moved)?;
        let moved = outlines_moved(alloc, self.records.map(), &units, bodies, &names)?;
        let records = self.records.after(alloc, &moved)?;
        Ok(Tables { units, records })
    }

    /// The tables after a batch, with the outlines of the records that are new at hand. These tables stay.
    pub fn apply(&self, alloc: Global, batch: &Batch, bodies: &Outlines) -> Result<Tables, Memory>
        ensures known { IfOk result (λ after. after ≡ known_after batch.now.puts batch.now.gone bodies.now self.now) }
        ensures follows { IfOk result (λ after. (units later : Units) → AreTables units self.now
            → Follows batch.now.puts batch.now.gone bodies.now units later → AreTables later after) }
    {
        laws::tables_follow_a_batch();
        let units = self.units.map();
        let _unit_names = units.len();
        let outlines = self.records.map();
        let _outline_names = outlines.len();
        let after = self.applied(alloc, batch, bodies)?;
        Ok(after)
    }

    /// The records that hold a symbol of a USR, rising and each once. Takes no memory.
    pub fn providers(&self, usr: &Text) -> &[FileName]
        ensures { (units : Units) → AreTables units self.now → result.now ≡ providers usr.now units }
    {
        laws::what_is_given_is_what_look_ups_find();
        let outlines = self.records.map();
        let _rising = outlines.len();
        self.records.providers(usr)
    }

    /// The records with a relation to a USR, rising and each once. Takes no memory.
    pub fn related(&self, usr: &Text) -> &[FileName]
        ensures { (units : Units) → AreTables units self.now → result.now ≡ related usr.now units }
    {
        laws::what_is_given_is_what_look_ups_find();
        let outlines = self.records.map();
        let _rising = outlines.len();
        self.records.related(usr)
    }

    /// The USRs that symbols of a name have, rising and each once. Takes no memory.
    pub fn named(&self, name: &Text) -> &[Text]
        ensures { (units : Units) → AreTables units self.now → result.now ≡ named name.now units }
    {
        laws::what_is_given_is_what_look_ups_find();
        let outlines = self.records.map();
        let _rising = outlines.len();
        self.records.named(name)
    }

    /// The name of symbols at a place; None exactly at or past the number of names. Takes no memory.
    pub fn name_at(&self, place: u64) -> Option<&Text>
        ensures { (units : Units) → AreTables units self.now → option_copied result ≡ name_at place units }
    {
        laws::what_is_given_is_what_look_ups_find();
        let outlines = self.records.map();
        let _rising = outlines.len();
        self.records.name_at(place)
    }

    /// The USRs that symbols of a code generation name have, rising and each once; an empty one has none. Takes no memory.
    pub fn coded(&self, codegen: &Text) -> &[Text]
        ensures { (units : Units) → AreTables units self.now → result.now ≡ coded codegen.now units }
    {
        laws::what_is_given_is_what_look_ups_find();
        let outlines = self.records.map();
        let _rising = outlines.len();
        self.records.coded(codegen)
    }

    /// The records that are listed under a path, rising and each once. Takes no memory.
    pub fn in_path(&self, path: &Text) -> &[FileName]
        ensures { (units : Units) → AreTables units self.now → result.now ≡ in_path path.now units }
    {
        laws::what_is_given_is_what_look_ups_find();
        self.units.in_path(path)
    }

    /// The paths under which a record is listed, rising and each once. Takes no memory.
    pub fn paths(&self, name: &FileName) -> &[Text]
        ensures { (units : Units) → AreTables units self.now → result.now ≡ paths name.now units }
    {
        laws::what_is_given_is_what_look_ups_find();
        self.units.paths(name)
    }

    /// The units that list a path, as a record's or a file's, rising and each once. Takes no memory.
    pub fn listing(&self, path: &Text) -> &[FileName]
        ensures { (units : Units) → AreTables units self.now → result.now ≡ listing path.now units }
    {
        laws::what_is_given_is_what_look_ups_find();
        self.units.listing(path)
    }

    /// The unit at a place, in the order of names; None exactly at or past the number of units. Takes no memory.
    pub fn unit_at(&self, place: u64) -> Option<(&FileName, &UnitValue)>
        ensures { (units : Units) → AreTables units self.now → option_map deref_pair result ≡ option_map bare (unit_at place units) }
    {
        match self.units.map().at(place) {
            None => None,
            Some((name, unit)) => Some((name, &**unit)),
        }
    }

    /// The unit of a name; None exactly where no unit has it. Takes no memory.
    pub fn unit(&self, name: &FileName) -> Option<&UnitValue>
        ensures { (units : Units) → AreTables units self.now → option_copied result ≡ unit_of name.now units }
    {
        laws::what_is_given_is_what_look_ups_find();
        self.unit_named(name)
    }

    /// What stands under a name.
    fn unit_named(&self, name: &FileName) -> Option<&UnitValue>
        ensures { option_copied result ≡ look_up text_cmp self.now.units name.now }
    {
        match self.units.map().get(name) {
            None => None,
            Some(unit) => Some(&**unit),
        }
    }

    /// What these tables' look-ups find is what is found from scratch in the units that they are of. Does nothing.
    pub fn find_what_is_there(&self)
        ensures { (units : Units) → AreTables units self.now → found_of self.now ≡ found_in units }
    {
        laws::what_is_given_is_what_look_ups_find();
        let outlines = self.records.map();
        let _rising = outlines.len();
    }
}

/// Each look-up finds what the outlines and the units give under its key.
impl Lookups for Tables {
    ghost found = { found_of };

    fn providers(&self, usr: &Text) -> &[FileName] {
        self.records.providers(usr)
    }

    fn related(&self, usr: &Text) -> &[FileName] {
        self.records.related(usr)
    }

    fn named(&self, name: &Text) -> &[Text] {
        self.records.named(name)
    }

    fn coded(&self, codegen: &Text) -> &[Text] {
        self.records.coded(codegen)
    }

    fn name_at(&self, place: u64) -> Option<&Text> {
        self.records.name_at(place)
    }

    fn in_path(&self, path: &Text) -> &[FileName] {
        self.units.in_path(path)
    }

    fn paths(&self, name: &FileName) -> &[Text] {
        self.units.paths(name)
    }

    fn listing(&self, path: &Text) -> &[FileName] {
        self.units.listing(path)
    }

    fn unit_at(&self, place: u64) -> Option<(&FileName, &UnitValue)> {
        match self.units.map().at(place) {
            None => None,
            Some((name, unit)) => Some((name, &**unit)),
        }
    }

    fn unit(&self, name: &FileName) -> Option<&UnitValue> {
        self.unit_named(name)
    }
}
