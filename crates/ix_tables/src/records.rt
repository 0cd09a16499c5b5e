//! The outlines of the records that a version's units list, and what look-ups find by them.
ghost use Rattle.std.specs.Prelude.{◌≡◌, [], slice_get, option_copied, IfOk};
ghost use Rattle.std.specs.List.{flat_map};
ghost use Rattle.ix_outline.specs.Balance.{Balances};
ghost use Rattle.ix_outline.specs.Facts.{provided, relating, naming, coding};
ghost use Rattle.ix_outline.specs.Finding.{values_under, keys_given};

use crate::gives::{Coding, Naming, Providing, Relating, revised};
use crate::laws;
use crate::map::Map;
use crate::mover::Mover;
use ix_index::Index;
use ix_outline::Outline;
use ix_types::{FileName, Memory, Text};
use std::alloc::Global;
use std::marker::Model;

/// Outlines by name with an index for each look-up of symbols, seen as the list of names and outlines.
#[derive(Drop)]
pub(crate) struct RecordTables {
    map: Map<Outline>,
    providers: Index<Text, FileName, 64>,
    related: Index<Text, FileName, 64>,
    named: Index<Text, Text, 64>,
    coded: Index<Text, Text, 64>,
}

impl Model for RecordTables {
    ghost use Rattle.std.specs.Prelude.{List, ℕ};
    ghost use Rattle.ix_outline.specs.declared.outline.Outline.{Outline};
    ghost use Rattle.ix_tables.specs.Kept.{AreRecordTables};

    ghost Value = { List (List ℕ × Outline) };

    ghost view = { λ tables. tables.map };

    ghost invariant = { λ tables. AreRecordTables tables.map tables.providers tables.related tables.named tables.coded };
}

impl RecordTables {
    /// Of no record. Takes no memory.
    pub(crate) fn empty() -> RecordTables
        ensures { result ≡ [] }
    {
        RecordTables {
            map: Map::empty(),
            providers: Index::empty(),
            related: Index::empty(),
            named: Index::empty(),
            coded: Index::empty(),
        }
    }

    /// The same once more.
    pub(crate) fn share(&self) -> Result<RecordTables, Memory>
        ensures { IfOk result (λ same. same ≡ self.now) }
    {
        Ok(RecordTables {
            map: self.map.share()?,
            providers: self.providers.share()?,
            related: self.related.share()?,
            named: self.named.share()?,
            coded: self.coded.share()?,
        })
    }

    /// The outlines themselves.
    pub(crate) fn map(&self) -> &Map<Outline>
        ensures { result.now ≡ self.now }
    {
        &self.map
    }

    /// After outlines came and went.
    pub(crate) fn after(
        &self,
        alloc: Global,
        mover: &Mover<Outline>,
    ) -> Result<RecordTables, Memory>
        requires { Balances self.now mover.now.entries mover.now.gained mover.now.lost }
        ensures { IfOk result (λ after. after ≡ mover.now.entries) }
    {
        let current = mover.map();
        let _rising = current.len();
        let map = current.share()?;
        let providers = revised::<Outline, Text, FileName, Providing>(
            alloc,
            &self.providers,
            mover,
        )?;
        let related = revised::<Outline, Text, FileName, Relating>(alloc, &self.related, mover)?;
        let named = revised::<Outline, Text, Text, Naming>(alloc, &self.named, mover)?;
        let coded = revised::<Outline, Text, Text, Coding>(alloc, &self.coded, mover)?;
        Ok(RecordTables {
            map,
            providers,
            related,
            named,
            coded,
        })
    }

    /// The records that hold a symbol of a USR.
    pub(crate) fn providers(&self, usr: &Text) -> &[FileName]
        ensures { result.now ≡ values_under usr.now (flat_map provided self.now) }
    {
        laws::an_index_finds_what_facts_give();
        self.providers.values(usr)
    }

    /// The records with a relation to a USR.
    pub(crate) fn related(&self, usr: &Text) -> &[FileName]
        ensures { result.now ≡ values_under usr.now (flat_map relating self.now) }
    {
        laws::an_index_finds_what_facts_give();
        self.related.values(usr)
    }

    /// The USRs of a name.
    pub(crate) fn named(&self, name: &Text) -> &[Text]
        ensures { result.now ≡ values_under name.now (flat_map naming self.now) }
    {
        laws::an_index_finds_what_facts_give();
        self.named.values(name)
    }

    /// The name at a place.
    pub(crate) fn name_at(&self, place: u64) -> Option<&Text>
        ensures { option_copied result ≡ slice_get (keys_given (flat_map naming self.now)) place }
    {
        laws::an_index_finds_what_facts_give();
        self.named.key_at(place)
    }

    /// The USRs of a code generation name.
    pub(crate) fn coded(&self, codegen: &Text) -> &[Text]
        ensures { result.now ≡ values_under codegen.now (flat_map coding self.now) }
    {
        laws::an_index_finds_what_facts_give();
        self.coded.values(codegen)
    }
}
