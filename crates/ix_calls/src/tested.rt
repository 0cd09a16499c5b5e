//! Whether the library is as a lane's call wants it: asked before the call is made.
ghost use Rattle.std.specs.Prelude.{◌≡◌, ◌<◌, length, true, None, IsSome};
ghost use Rattle.std.specs.List.{AllByRecursion};
ghost use Rattle.ix_machine.specs.Needs.{option_any};
ghost use Rattle.ix_guard.specs.Guarding.{lease_of};
ghost use Rattle.ix_guard.specs.Protection.{leases_name, was_put};
ghost use Rattle.ix_ledger.specs.Kept.{staged_in};
ghost use Rattle.ix_library.specs.Conditions.{has_put_each};

use ix_dir::Dir;
use ix_library::Library;
use ix_types::{FileName, Naming};
use ix_unit::{RecordDep, UnitValue};

/// Whether there is the lane, and it has no lease.
pub(crate) fn is_free<D: Dir, N: Naming>(library: &Library<D, N>, number: u32) -> bool
    ensures lane { result ≡ true → number < length library.now.ledger.kept.guard.leases }
    ensures free { result ≡ true → lease_of library.now.ledger.kept.guard number ≡ None }
{
    if !library.has_lane(number) {
        return false;
    }
    !library.has_lease(number)
}

/// Whether there is the lane, it has leased the name, and it has staged nothing.
pub(crate) fn may_put<D: Dir, N: Naming>(
    library: &Library<D, N>,
    number: u32,
    name: FileName,
) -> bool
    ensures lane { result ≡ true → number < length library.now.ledger.kept.guard.leases }
    ensures unstaged { result ≡ true → staged_in library.now.ledger.kept number ≡ None }
    ensures leased { result ≡ true → option_any (leases_name name) (lease_of library.now.ledger.kept.guard number) ≡ true }
{
    if !library.has_lane(number) {
        return false;
    }
    if library.staged(number).is_some() {
        return false;
    }
    library.has_leased(number, name)
}

/// Whether there is the lane, each record of the unit was put under its lease, and it has staged nothing.
pub(crate) fn may_stage<D: Dir, N: Naming>(
    library: &Library<D, N>,
    number: u32,
    unit: &UnitValue,
) -> bool
    ensures lane { result ≡ true → number < length library.now.ledger.kept.guard.leases }
    ensures unstaged { result ≡ true → staged_in library.now.ledger.kept number ≡ None }
    ensures put { result ≡ true → has_put_each unit.now.records (lease_of library.now.ledger.kept.guard number) ≡ true }
{
    ix_library::laws::puts_are_noted();
    if !library.has_lane(number) {
        return false;
    }
    if library.staged(number).is_some() {
        return false;
    }
    if !library.has_lease(number) {
        return false;
    }
    has_put_all(library, number, unit.records.as_slice())
}

/// Whether each of the records was put under the lane's lease.
fn has_put_all<D: Dir, N: Naming>(
    library: &Library<D, N>,
    number: u32,
    records: &[RecordDep],
) -> bool
    requires { number < length library.now.ledger.kept.guard.leases }
    ensures { result ≡ true → AllByRecursion (λ dep. was_put library.now.ledger.kept.guard number dep.name ≡ true) records.now }
{
    for dep in records {
        if !library.has_put(number, dep.name) {
            return false;
        }
    }
    true
}

/// Whether there is the lane, and it has staged a unit.
pub(crate) fn has_staged<D: Dir, N: Naming>(library: &Library<D, N>, number: u32) -> bool
    ensures lane { result ≡ true → number < length library.now.ledger.kept.guard.leases }
    ensures staged { result ≡ true → IsSome (staged_in library.now.ledger.kept number) }
{
    if !library.has_lane(number) {
        return false;
    }
    library.staged(number).is_some()
}
