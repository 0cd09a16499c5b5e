//! Record files, each read at most once.
ghost use Rattle.std.specs.Prelude.{◌≡◌, ◌≢◌, true, false, Some, None, Ok, IfOk, IfErr, IfSome, OnOk};
ghost use Rattle.ix_dir.specs.Files.{bytes_at};
ghost use Rattle.ix_dir.specs.Moves.{area_after};
ghost use Rattle.ix_dir.specs.State.{counted_where};
ghost use Rattle.ix_machine.specs.Opening.{whole_value};
ghost use Rattle.ix_opening.specs.Fault.{open_failed, HasNotFallen};
ghost use Rattle.ix_opening.specs.Known.{FoundWhole, IsRead, AreRead, Keeps, state_of};

use crate::fault::OpenError;
use indexmap::IndexMap;
use ix_dir::{Area, Dir};
use ix_record::{RecordError, decode};
use ix_types::{FileName, Naming, Seq};
use std::alloc::Global;

/// What was found of a record file.
#[derive(Clone, Copy, Debug, PartialEq, Eq)]
pub enum RecordState {
    /// It is what its name says.
    Whole,
    /// It wasn't there.
    Missing,
    /// It isn't what its name says.
    Damaged,
}

/// What is known of a record file, which is read where nothing is.
pub(crate) fn state_of<D: Dir, N: Naming>(
    alloc: Global,
    dir: &mut D,
    naming: &N,
    name: FileName,
    known: &mut IndexMap<FileName, RecordState>,
) -> Result<RecordState, OpenError>
    ensures known { IfOk result (λ state. state_of known.new.entries name ≡ Some state) }
    ensures kept { OnOk result (Keeps known.old.entries known.new.entries) }
    ensures read { OnOk result (AreRead N.name_of (D.state dir.old).moves known.old.entries → AreRead N.name_of (D.state dir.old).moves known.new.entries) }
    ensures state { D.state dir.new ≡ record (D.state dir.old) { faults = counted_where (open_failed result) (D.state dir.old).faults; finds = (D.state dir.new).finds } }
    ensures finds { HasNotFallen (D.state dir.old).finds (D.state dir.new).finds }
{
    if let Some(state) = known.get(&name) {
        return Ok(*state);
    }
    let state = read_record(alloc, dir, naming, name)?;
    known.insert(name, state)?;
    Ok(state)
}

/// Reads a record file.
fn read_record<D: Dir, N: Naming>(
    alloc: Global,
    dir: &mut D,
    naming: &N,
    name: FileName,
) -> Result<RecordState, OpenError>
    ensures read { IfOk result (IsRead N.name_of (D.state dir.old).moves name) }
    ensures state { D.state dir.new ≡ record (D.state dir.old) { faults = counted_where (open_failed result) (D.state dir.old).faults; finds = (D.state dir.new).finds } }
    ensures finds { HasNotFallen (D.state dir.old).finds (D.state dir.new).finds }
{
    let Some(bytes) = read_file(alloc, dir, Area::Records, name)? else {
        return Ok(RecordState::Missing);
    };
    if is_whole(alloc, naming, name, bytes.as_slice())? {
        return Ok(RecordState::Whole);
    }
    Ok(RecordState::Damaged)
}

/// Whether bytes are those of a record of this name.
fn is_whole<N: Naming>(
    alloc: Global,
    naming: &N,
    name: FileName,
    bytes: &[u8],
) -> Result<bool, OpenError>
    ensures whole { result ≡ Ok true → FoundWhole N.name_of name (Some bytes.now) }
    ensures damaged { result ≡ Ok false → whole_value N.name_of name bytes.now ≡ None }
    ensures wanting { IfErr result (λ e. e ≡ OpenError.Memory) }
{
    if name != naming.name(bytes) {
        return Ok(false);
    }
    match decode(alloc, bytes) {
        Ok(_) => Ok(true),
        Err(error) => {
            told_of_bytes(error)?;
            Ok(false)
        }
    }
}

/// Whether a fault is one of the bytes, and not want of memory.
fn told_of_bytes(error: RecordError) -> Result<(), OpenError>
    ensures bytes { OnOk result (error ≢ RecordError.Memory) }
    ensures wanting { IfErr result (λ e. e ≡ OpenError.Memory) }
{
    match error {
        RecordError::BadMagic => Ok(()),
        RecordError::Short => Ok(()),
        RecordError::BadField { at: _ } => Ok(()),
        RecordError::OutOfOrder { at: _ } => Ok(()),
        RecordError::BadIndex { at: _ } => Ok(()),
        RecordError::RolesMissing { at: _ } => Ok(()),
        RecordError::Trailing { at: _ } => Ok(()),
        RecordError::Memory => Err(OpenError::Memory),
    }
}

/// The bytes under a name of an area.
pub(crate) fn read_file<D: Dir>(
    alloc: Global,
    dir: &mut D,
    area: Area,
    name: FileName,
) -> Result<Option<Seq<u8>>, OpenError>
    ensures bytes { IfOk result (λ found. IfSome (D.state dir.old).moves (λ m. found ≡ bytes_at (area_after m area) name)) }
    ensures state { D.state dir.new ≡ record (D.state dir.old) { faults = counted_where (open_failed result) (D.state dir.old).faults; finds = (D.state dir.new).finds } }
    ensures finds { HasNotFallen (D.state dir.old).finds (D.state dir.new).finds }
{
    Ok(dir.read(alloc, area, name)?)
}
