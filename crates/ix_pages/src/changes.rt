//! Many changes of a map in one go.
ghost use Rattle.std.specs.Prelude.{◌≡◌, ◌↔◌, true, map, IfOk};
ghost use Rattle.std.specs.Ordering.{is_lt};
ghost use Rattle.ix_pages.specs.Paging.{pairs_of};
ghost use Rattle.ix_pages.specs.Changes.{key_of_change, changed, pages_changed, AreRising};
ghost use Rattle.ix_pages.specs.Edits.{change_of};

use crate::bulk::Edit;
use crate::key::Key;
use crate::laws;
use crate::page::Entry;
use crate::pages::Pages;
use ix_types::Memory;
use std::alloc::Global;
use std::sync::Arc;

/// A change of a map.
#[derive(Debug, Drop)]
pub enum Change<K, V> {
    /// The value is put under the key.
    Put(K, V),
    /// The key is taken away.
    Take(K),
}

impl<K, V> Change<K, V> {
    /// The key that is put or taken away.
    pub fn key(&self) -> &K
        ensures { result.now ≡ key_of_change self.now }
    {
        match self {
            Change::Put(key, _) => key,
            Change::Take(key) => key,
        }
    }
}

/// Whether each key is less than the next one, as `with_all` wants it.
pub fn are_rising<K: Ord, V>(changes: &[Change<K, V>]) -> bool
    ensures { (result ≡ true) ↔ AreRising K.cmp changes.now }
{
    changes.is_sorted_by(
        |change: &Change<K, V>, next: &Change<K, V>| -> bool
            ensures { result ≡ is_lt (K.cmp (key_of_change change.now) (key_of_change next.now)) }
        { change.key().cmp(next.key()).is_lt() },
    )
}

/// A change as an edit.
pub(crate) fn edit_of<'k, K: Drop + 'k, V: Drop>(
    alloc: Global,
    change: Change<K, V>,
) -> Result<Edit<'k, K, V>, Memory>
    ensures { IfOk result (λ edit. change_of edit ≡ change) }
{
    match change {
        Change::Put(key, value) => {
            let entry = Arc::new(alloc, Entry { key, value })?;
            Ok(Edit::Place(entry))
        }
        Change::Take(key) => Ok(Edit::Remove(key)),
    }
}

/// Changes as edits.
fn edits_of<'k, K: Drop + 'k, V: Drop>(
    alloc: Global,
    changes: Vec<Change<K, V>>,
) -> Result<Vec<Edit<'k, K, V>>, Memory>
    ensures { IfOk result (λ edits. map change_of edits.items ≡ changes.items) }
{
    let mut edits = Vec::with_capacity(alloc, changes.len())?;
    for change in changes {
        let edit = edit_of(alloc, change)?;
        edits.push(edit)?;
    }
    Ok(edits)
}

impl<K: Key + Drop, V: Drop, const P: usize> Pages<K, V, P> {
    /// The map after changes whose keys rise, in one go. A page into which no change falls is shared. This one stays.
    pub fn with_all(
        &self,
        alloc: Global,
        changes: Vec<Change<K, V>>,
    ) -> Result<Pages<K, V, P>, Memory>
        requires { AreRising K.cmp changes.items }
        ensures pages { IfOk result (λ after. after ≡ pages_changed K.cmp P self.now changes.items) }
        ensures pairs { IfOk result (λ after. pairs_of after ≡ changed K.cmp (pairs_of self.now) changes.items) }
    {
        laws::pages_are_the_pairs::<K, V>();
        let _pages = self.len();
        let edits = edits_of(alloc, changes)?;
        let after = self.with_edits(alloc, &edits)?;
        Ok(after)
    }
}
