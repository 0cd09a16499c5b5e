//! What a scan or a load that fails leaves.
ghost use Rattle.std.specs.Prelude.{◌≡◌, Some, IfSome, IsSome, true};
ghost use Rattle.ix_machine.specs.declared.event.Call.TheVariants as call;
ghost use Rattle.ix_machine.specs.declared.event.Outcome.{Outcome};
ghost use Rattle.ix_ledger.specs.Effects.{IsFailure, IsFailureOf};
ghost use Rattle.ix_library.specs.Endings.{with_event};
ghost use Rattle.ix_library.specs.LookEndings.{scan_flag, load_flag, kept_behind_scan, known_behind_scan, kept_behind_load, known_behind_load};

use crate::known::KnownStamps;
use ix_cabinet::ScanError;
use ix_ledger::Ledger;
use ix_machine::{Outcome, Purpose};
use ix_shelf::LoadError;
use ix_types::FileName;

/// How the machine ends a scan that failed so. None where memory was wanting.
fn scan_flag(error: &ScanError) -> Option<Outcome>
    ensures flag { result ≡ scan_flag error.now }
    ensures failure { IfSome result IsFailure }
{
    match error {
        ScanError::Fault => Some(Outcome::Fault),
        ScanError::Lost { name } => Some(Outcome::Lost { name: *name }),
        ScanError::Damaged { name } => Some(Outcome::Damaged { name: *name }),
        ScanError::Memory => None,
    }
}

/// How the machine ends a load that failed so. None where memory was wanting.
fn load_flag(error: &LoadError) -> Option<Outcome>
    ensures { result ≡ load_flag error.now }
{
    match error {
        LoadError::Fault => Some(Outcome::Fault),
        LoadError::Lost { name } => Some(Outcome::Lost { name: *name }),
        LoadError::Damaged { name } => Some(Outcome::Damaged { name: *name }),
        LoadError::Memory => None,
    }
}

/// Where memory wasn't wanting, the scan is a step that closes the open import. Takes no memory.
pub(crate) fn end_failed_scan(
    ledger: &mut Ledger,
    known: &mut KnownStamps,
    lane: u32,
    error: &ScanError,
)
    requires { IsSome (scan_flag error.now) → ledger.old.has_room ≡ true }
    ensures kept { ledger.new.kept ≡ kept_behind_scan (scan_flag error.now) ledger.old.kept }
    ensures events { ledger.new.events ≡ with_event ledger.old.events lane call.Scan (scan_flag error.now) }
    ensures known { known.new ≡ known_behind_scan (scan_flag error.now) known.old }
{
    if let Some(flag) = scan_flag(error) {
        ledger.scan_failed(lane, flag);
        known.import = None;
    }
}

/// Where memory wasn't wanting, the load is a step, which closes the open import where it was for that. Takes no memory.
pub(crate) fn end_failed_load(
    ledger: &mut Ledger,
    known: &mut KnownStamps,
    lane: u32,
    name: FileName,
    purpose: Purpose,
    error: &LoadError,
)
    requires room { IsSome (load_flag error.now) → ledger.old.has_room ≡ true }
    requires failure { IfSome (load_flag error.now) (IsFailureOf name) }
    ensures kept { ledger.new.kept ≡ kept_behind_load purpose (load_flag error.now) ledger.old.kept }
    ensures events { ledger.new.events ≡ with_event ledger.old.events lane (call.Load name) (load_flag error.now) }
    ensures known { known.new ≡ known_behind_load purpose (load_flag error.now) known.old }
{
    if let Some(flag) = load_flag(error) {
        ledger.load_failed(lane, name, purpose, flag);
        forget_import(known, purpose);
    }
}

/// No stamps are known for an import, where it was for that. Takes no memory.
fn forget_import(known: &mut KnownStamps, purpose: Purpose)
    ensures { (flag : Outcome) → known.new ≡ known_behind_load purpose (Some flag) known.old }
{
    match purpose {
        Purpose::Import => known.import = None,
        Purpose::Ask => {}
    }
}
