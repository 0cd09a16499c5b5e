//! An open import.
ghost use Rattle.std.specs.Prelude.{◌≡◌, ◌≤◌, take, slice_get, OnOk, OnErr, IfOk, is_some};
ghost use Rattle.ix_types.specs.Row.{text_cmp};
ghost use Rattle.ix_model.specs.Units.{Units};
ghost use Rattle.ix_outline.specs.Following.{Follows, known_after};
ghost use Rattle.ix_outline.specs.Known.{AreTables};
ghost use Rattle.ix_outline.specs.Outline.{outline_of};
ghost use Rattle.ix_pages.specs.Pairs.{look_up};
ghost use Rattle.ix_import.specs.Importing.{opened_by, next_in, taken_into, AreTaken};

use ix_outline::Outline;
use ix_record::RecordValue;
use ix_tables::{Outlines, Tables, Version};
use ix_types::{FileName, Memory};
use ix_unit::Scan;
use std::alloc::Global;
use std::marker::Model;
use std::sync::Arc;

/// A scan, the outlines that were taken, and how many of the new names from the front were taken at least.
#[derive(Drop)]
pub(crate) struct Import {
    scan: Scan,
    taken: Outlines,
    front: usize,
}

impl Model for Import {
    ghost use Rattle.std.specs.Prelude.{take};
    ghost use Rattle.ix_import.specs.Importing.{Opened, AreTaken};

    ghost Value = { Opened };

    ghost view = { λ i. record { mark = i.scan.mark; puts = i.scan.batch.puts; gone = i.scan.batch.gone; fresh = i.scan.fresh; taken = i.taken } };

    ghost invariant = { λ i. AreTaken i.taken (take i.front i.scan.fresh) };
}

impl Import {
    /// An import of a scan, of which nothing is taken. Takes no memory.
    pub(crate) fn of(scan: Scan) -> Import
        ensures { result ≡ opened_by scan }
    {
        Import {
            scan,
            taken: Outlines::new(),
            front: 0,
        }
    }

    /// The place of the first new name that wasn't taken.
    fn place(&self) -> usize
        ensures next { slice_get self.now.fresh result ≡ next_in self.now.fresh self.now.taken }
        ensures passed { AreTaken self.now.taken (take result self.now.fresh) }
    {
        first_new(self.scan.fresh.as_slice(), self.front, &self.taken)
    }

    /// The first new name that wasn't taken.
    pub(crate) fn next(&self) -> Option<FileName>
        ensures { result ≡ next_in self.now.fresh self.now.taken }
    {
        self.scan.fresh.as_slice().get(self.place()).copied()
    }

    /// Takes a record.
    pub(crate) fn take(
        &mut self,
        alloc: Global,
        name: FileName,
        body: &RecordValue,
    ) -> Result<(), Memory>
        ensures ok { OnOk result (self.new ≡ taken_into name (outline_of body.now) self.old) }
        ensures err { OnErr result (self.new ≡ self.old) }
    {
        ix_pages::laws::a_change_changes_one_key::<FileName, Outline>();
        let outline = Outline::of(alloc, body)?;
        let outline = Arc::new(alloc, outline)?;
        let taken = self.taken.with(alloc, name, outline)?;
        self.front = self.place();
        self.taken = taken;
        Ok(())
    }

    /// The version that the import leads to from another.
    pub(crate) fn version_after(
        &self,
        alloc: Global,
        before: &Version,
    ) -> Result<Arc<Version>, Memory>
        ensures number { IfOk result (λ after. after.value.number ≡ self.now.mark) }
        ensures known { IfOk result (λ after. after.value.tables ≡ known_after self.now.puts self.now.gone self.now.taken before.now.tables) }
        ensures follows { IfOk result (λ after. (units later : Units) → AreTables units before.now.tables
            → Follows self.now.puts self.now.gone self.now.taken units later → AreTables later after.value.tables) }
    {
        let tables = before.tables.apply(alloc, &self.scan.batch, &self.taken)?;
        Ok(Arc::new(
            alloc,
            Version {
                number: self.scan.mark,
                tables,
            },
        )?)
    }
}

/// The place, from this one on, of the first name that wasn't taken; past the last where there is none.
fn first_new(fresh: &[FileName], from: usize, taken: &Outlines) -> usize
    requires { AreTaken taken.now (take from fresh.now) }
    ensures next { slice_get fresh.now result ≡ next_in fresh.now taken.now }
    ensures passed { AreTaken taken.now (take result fresh.now) }
    ensures forward { from ≤ result }
{
    let mut place = from;
    while place < fresh.len() {
        if !is_taken(&fresh[place], taken) {
            return place;
        }
        place += 1;
    }
    place
}

/// Whether an outline was taken under the name.
fn is_taken(name: &FileName, taken: &Outlines) -> bool
    ensures { result ≡ is_some (look_up text_cmp taken.now name.now) }
{
    taken.get(name).is_some()
}
