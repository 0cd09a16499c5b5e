//! The importer.
ghost use Rattle.std.specs.Prelude.{◌≡◌, ◌≢◌, ◌↔◌, ℕ, List, [], None, Some, Contains, is_some, IsSome, IfSome, IfOk, OnOk, OnErr};
ghost use Rattle.std.specs.List.Sorted.{IsStrictlySortedBy};
ghost use Rattle.std.specs.declared.cmp.Ordering.TheVariants.{Less};
ghost use Rattle.ix_types.specs.Row.{text_cmp};
ghost use Rattle.ix_model.specs.Units.{Units};
ghost use Rattle.ix_pages.specs.Pairs.{look_up};
ghost use Rattle.ix_outline.specs.Known.{AreTables};
ghost use Rattle.ix_outline.specs.Outline.{outline_of};
ghost use Rattle.ix_import.specs.Importing.{Opened, importing_nothing, opened_by, begun, next_of, took, abandoned, finished};
ghost use Rattle.ix_import.specs.Leading.{LeadsFrom, IsValueOf};

use crate::import::Import;
use crate::laws;
use ix_outline::Outline;
use ix_record::RecordValue;
use ix_tables::{Tables, Version};
use ix_types::{FileName, Memory};
use ix_unit::Scan;
use std::alloc::Global;
use std::marker::Model;
use std::sync::Arc;

/// Brings versions of the tables up to date from scans, seen as the version's number, what its tables know, and the open import.
#[derive(Drop)]
pub struct Importer {
    version: Arc<Version>,
    import: Option<Import>,
}

impl Model for Importer {
    ghost use Rattle.ix_import.specs.Importing.{Importing};

    ghost Value = { Importing };

    ghost view = { λ i. record { number = i.version.value.number; known = i.version.value.tables; import = i.import } };
}

impl Importer {
    /// At the version of no units, with no import open.
    pub fn new(alloc: Global) -> Result<Importer, Memory>
        ensures nothing { IfOk result (λ importer. importer ≡ importing_nothing) }
        ensures number { IfOk result (λ importer. importer.number ≡ 0) }
        ensures closed { IfOk result (λ importer. importer.import ≡ None) }
        ensures tables { IfOk result (λ importer. AreTables [] importer.known) }
    {
        let version = Version {
            number: 0,
            tables: Tables::empty(),
        };
        Ok(Importer {
            version: Arc::new(alloc, version)?,
            import: None,
        })
    }

    /// The version of the last import that was finished. Takes no memory.
    pub fn version(&self) -> &Arc<Version>
        ensures number { result.now.value.number ≡ self.now.number }
        ensures tables { result.now.value.tables ≡ self.now.known }
    {
        &self.version
    }

    /// Whether an import is open. Takes no memory.
    pub fn is_open(&self) -> bool
        ensures { result ≡ is_some self.now.import }
    {
        self.import.is_some()
    }

    /// Opens an import of a scan. One that was open is closed, and the version stays. Takes no memory.
    pub fn begin(&mut self, scan: Scan)
        ensures state { self.new ≡ begun scan self.old }
        ensures open { self.new.import ≡ Some (opened_by scan) }
        ensures number { self.new.number ≡ self.old.number }
        ensures known { self.new.known ≡ self.old.known }
    {
        self.import = Some(Import::of(scan));
    }

    /// The first new name whose record wasn't taken, the least where the scan's names rise; None exactly where there is none, or no import is
    /// open. Takes no memory.
    pub fn next_new(&self) -> Option<FileName>
        ensures next { result ≡ next_of self.now }
        ensures least { IfSome self.now.import (λ opened. IsStrictlySortedBy text_cmp opened.fresh → (name : List ℕ) → (result ≡ Some name) ↔ (Contains opened.fresh name
            × (look_up text_cmp opened.taken name ≡ None) × ((other : List ℕ) → Contains opened.fresh other → text_cmp other name ≡ Less → look_up text_cmp opened.taken other ≢ None))) }
        ensures closed { self.now.import ≡ None → result ≡ None }
    {
        self.first_new()
    }

    /// The first new name of the open import whose record wasn't taken.
    fn first_new(&self) -> Option<FileName>
        ensures { result ≡ next_of self.now }
    {
        match &self.import {
            None => None,
            Some(import) => import.next(),
        }
    }

    /// Takes the record of the next new name, of which its outline is kept. Where memory is wanting all stays.
    pub fn take(&mut self, alloc: Global, name: FileName, body: &RecordValue) -> Result<(), Memory>
        requires { next_of self.old ≡ Some name }
        ensures ok { OnOk result (self.new ≡ took name (outline_of body.now) self.old) }
        ensures taken { OnOk result ((opened : Opened) × (self.new.import ≡ Some opened) × (look_up text_cmp opened.taken name ≡ Some (outline_of body.now))) }
        ensures next { OnOk result (next_of self.new ≢ Some name) }
        ensures leads { OnOk result ((units later : Units) → LeadsFrom units later self.old → IsValueOf later name body.now → LeadsFrom units later self.new) }
        ensures number { self.new.number ≡ self.old.number }
        ensures known { self.new.known ≡ self.old.known }
        ensures err { OnErr result (self.new ≡ self.old) }
    {
        ix_pages::laws::a_change_changes_one_key::<FileName, Outline>();
        self.keep(alloc, name, body)
    }

    /// The outline of a record stands with those taken.
    fn keep(&mut self, alloc: Global, name: FileName, body: &RecordValue) -> Result<(), Memory>
        requires { next_of self.old ≡ Some name }
        ensures ok { OnOk result (self.new ≡ took name (outline_of body.now) self.old) }
        ensures err { OnErr result (self.new ≡ self.old) }
    {
        match &mut self.import {
            None => unreachable!(),
            Some(import) => import.take(alloc, name, body),
        }
    }

    /// The version of the scan's mark, once all new records were taken; the import is closed. Where memory is wanting all stays.
    pub fn finish(&mut self, alloc: Global) -> Result<Arc<Version>, Memory>
        requires open { IsSome self.old.import }
        requires taken { next_of self.old ≡ None }
        ensures ok { OnOk result (self.new ≡ finished self.old) }
        ensures closed { OnOk result (self.new.import ≡ None) }
        ensures number { IfOk result (λ version. version.value.number ≡ self.new.number) }
        ensures mark { IfOk result (λ version. IfSome self.old.import (λ opened. version.value.number ≡ opened.mark)) }
        ensures known { IfOk result (λ version. version.value.tables ≡ self.new.known) }
        ensures follows { IfOk result (λ version. (units later : Units) → LeadsFrom units later self.old → AreTables later version.value.tables) }
        ensures err { OnErr result (self.new ≡ self.old) }
    {
        laws::an_import_leads_on();
        let after = match &self.import {
            None => unreachable!(),
            Some(import) => import.version_after(alloc, &self.version)?,
        };
        let version = Arc::try_clone(&after)?;
        *self = Importer {
            version: after,
            import: None,
        };
        Ok(version)
    }

    /// Closes the import, if one is open. The version stays. Takes no memory.
    pub fn abandon(&mut self)
        ensures state { self.new ≡ abandoned self.old }
        ensures closed { self.new.import ≡ None }
        ensures number { self.new.number ≡ self.old.number }
        ensures known { self.new.known ≡ self.old.known }
    {
        self.import = None;
    }
}
