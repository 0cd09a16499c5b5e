//! The memory of a step, which is taken before its first rename, removal or sync.
ghost use Rattle.std.specs.Prelude.{◌≡◌, ◌≤◌, true, OnOk};

use ix_dir::Dir;
use ix_ledger::Ledger;
use ix_types::Memory;
use std::alloc::Global;

/// Makes room for the event of a step, and for the renames, removals and syncs that it makes at most.
pub(crate) fn make_room<D: Dir>(
    alloc: Global,
    dir: &mut D,
    ledger: &mut Ledger,
) -> Result<(), Memory>
    ensures room { OnOk result (ledger.new.has_room ≡ true) }
    ensures spare { OnOk result (4 ≤ (D.state dir.new).spare) }
    ensures ledger { ledger.new ≡ record ledger.old { has_room = ledger.new.has_room } }
    ensures dir { D.state dir.new ≡ record (D.state dir.old) { spare = (D.state dir.new).spare } }
{
    ledger.reserve()?;
    dir.reserve(alloc, 4)
}
