//! What a lane has leased.
ghost use Rattle.std.specs.Prelude.{◌≡◌, true, false, IfOk, OnOk};
ghost use Rattle.std.specs.BTreeMap.{insert_entry};
ghost use Rattle.ix_types.specs.Row.{text_cmp};
ghost use Rattle.ix_guard.specs.Guarding.{lease_of_names, with_put};
ghost use Rattle.ix_guard.specs.Protection.{leases_name, has_put};

use ix_types::{FileName, Memory, Seq};
use std::alloc::Global;
use std::collections::BTreeMap;
use std::marker::Model;

/// The names that a lane has leased, each with whether its record was put under the lease.
#[derive(Drop)]
pub(crate) struct Lease {
    put: BTreeMap<FileName, bool>,
}

impl Model for Lease {
    ghost use Rattle.std.specs.Prelude.{List, ℕ, Bool};

    ghost Value = { List (List ℕ × Bool) };

    ghost view = { λ lease. lease.put.entries };
}

impl Lease {
    /// A lease of some names, none of them put.
    pub(crate) fn of(alloc: Global, names: &Seq<FileName>) -> Result<Lease, Memory>
        ensures { IfOk result (λ lease. lease ≡ lease_of_names names.now) }
    {
        let mut put = BTreeMap::new(alloc);
        for name in names.as_slice() {
            lease_one(&mut put, *name)?;
        }
        Ok(Lease { put })
    }

    /// Notes a leased name as put.
    pub(crate) fn note_put(&mut self, name: FileName)
        requires { leases_name name self.old ≡ true }
        ensures { self.new ≡ with_put name self.old }
    {
        if self.put.insert(name, true).is_err() {
            unreachable!()
        }
    }

    /// Whether the lease has the name: one look-up.
    pub(crate) fn has(&self, name: FileName) -> bool
        ensures { result ≡ leases_name name self.now }
    {
        self.put.contains_key(&name)
    }

    /// Whether the name was put under the lease: one look-up.
    pub(crate) fn has_put(&self, name: FileName) -> bool
        ensures { result ≡ has_put name self.now }
    {
        match self.put.get(&name) {
            None => false,
            Some(put) => *put,
        }
    }
}

/// Leases one more name.
fn lease_one(put: &mut BTreeMap<FileName, bool>, name: FileName) -> Result<(), Memory>
    ensures { OnOk result (put.new.entries ≡ insert_entry text_cmp put.old.entries name false) }
{
    if put.insert(name, false).is_err() {
        return Err(Memory);
    }
    Ok(())
}
