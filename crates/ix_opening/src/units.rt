//! Unit files, each with the first cause to refuse it.
ghost use Rattle.std.specs.Prelude.{◌≡◌, ◌≢◌, IfOk, IfErr, OnOk};
ghost use Rattle.ix_dir.specs.State.{counted_where};
ghost use Rattle.ix_machine.specs.Opening.{cause};
ghost use Rattle.ix_opening.specs.Fault.{open_failed, HasNotFallen};
ghost use Rattle.ix_opening.specs.Known.{AreRead, Agrees, Keeps};
ghost use Rattle.ix_opening.specs.Judged.{HaveFault, IsJudged, IsUnitOf};

use crate::fault::OpenError;
use crate::records::{RecordState, state_of};
use indexmap::IndexMap;
use ix_dir::Dir;
use ix_machine::UnitFault;
use ix_types::{FileName, Naming};
use ix_unit::{RecordDep, UnitError, UnitValue, decode};
use std::alloc::Global;
use std::sync::Arc;

/// What a unit file is taken for.
#[derive(Debug, Drop)]
pub enum Judged {
    /// A unit whose records stand whole.
    Sound(Arc<UnitValue>),
    /// Refused, for the first of its causes.
    Refused(UnitFault),
}

/// What the bytes under a unit's name are taken for.
pub(crate) fn judge<D: Dir, N: Naming>(
    alloc: Global,
    dir: &mut D,
    naming: &N,
    name: FileName,
    bytes: &[u8],
    known: &mut IndexMap<FileName, RecordState>,
) -> Result<Judged, OpenError>
    ensures judged { IfOk result (λ judged. (records : _) → Agrees N.name_of known.new.entries records → IsJudged N.name_of records name bytes.now judged) }
    ensures unit { IfOk result (IsUnitOf N.name_of name bytes.now) }
    ensures kept { OnOk result (Keeps known.old.entries known.new.entries) }
    ensures read { OnOk result (AreRead N.name_of (D.state dir.old).moves known.old.entries → AreRead N.name_of (D.state dir.old).moves known.new.entries) }
    ensures state { D.state dir.new ≡ record (D.state dir.old) { faults = counted_where (open_failed result) (D.state dir.old).faults; finds = (D.state dir.new).finds } }
    ensures finds { HasNotFallen (D.state dir.old).finds (D.state dir.new).finds }
{
    ix_machine::laws::opening_finds_sound_units();
    let unit = match decode(alloc, bytes) {
        Ok(unit) => unit,
        Err(error) => return Ok(Judged::Refused(cause_of(error)?)),
    };
    if name != naming.name(unit.output.bytes()) {
        return Ok(Judged::Refused(UnitFault::WrongName));
    }
    match fault_of(alloc, dir, naming, unit.records.as_slice(), known)? {
        Some(fault) => Ok(Judged::Refused(fault)),
        None => Ok(Judged::Sound(Arc::new(alloc, unit)?)),
    }
}

/// The fault of the first record that is missing or isn't whole.
fn fault_of<D: Dir, N: Naming>(
    alloc: Global,
    dir: &mut D,
    naming: &N,
    deps: &[RecordDep],
    known: &mut IndexMap<FileName, RecordState>,
) -> Result<Option<UnitFault>, OpenError>
    ensures fault { IfOk result (λ fault. (files : _) → Agrees N.name_of known.new.entries files → HaveFault N.name_of files deps.now fault) }
    ensures kept { OnOk result (Keeps known.old.entries known.new.entries) }
    ensures read { OnOk result (AreRead N.name_of (D.state dir.old).moves known.old.entries → AreRead N.name_of (D.state dir.old).moves known.new.entries) }
    ensures state { D.state dir.new ≡ record (D.state dir.old) { faults = counted_where (open_failed result) (D.state dir.old).faults; finds = (D.state dir.new).finds } }
    ensures finds { HasNotFallen (D.state dir.old).finds (D.state dir.new).finds }
{
    for dep in deps {
        match state_of(alloc, dir, naming, dep.name, known)? {
            RecordState::Whole => {}
            RecordState::Missing => {
                return Ok(Some(UnitFault::RecordMissing { name: dep.name }));
            }
            RecordState::Damaged => {
                return Ok(Some(UnitFault::RecordDamaged { name: dep.name }));
            }
        }
    }
    Ok(None)
}

/// The cause that a fault of the bytes is.
fn cause_of(error: UnitError) -> Result<UnitFault, OpenError>
    ensures cause { IfOk result (λ fault. fault ≡ cause error) }
    ensures wanting { IfErr result (λ e. (e ≡ OpenError.Memory) × (error ≡ UnitError.Memory)) }
    ensures read { OnOk result (error ≢ UnitError.Memory) }
{
    match error {
        UnitError::BadMagic => Ok(UnitFault::Magic),
        UnitError::Short => Ok(UnitFault::Short),
        UnitError::BadField { at } => Ok(UnitFault::Field { at }),
        UnitError::OutOfOrder { at } => Ok(UnitFault::Order { at }),
        UnitError::Trailing { at } => Ok(UnitFault::Trailing { at }),
        UnitError::BadDigest => Ok(UnitFault::Digest),
        UnitError::Memory => Err(OpenError::Memory),
    }
}
