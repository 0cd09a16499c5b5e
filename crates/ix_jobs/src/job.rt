//! What a described compile job writes.
ghost use Rattle.std.specs.Prelude.{◌≡◌, map, IfOk};
ghost use Rattle.std.specs.List.{AllByRecursion};
ghost use Rattle.ix_types.specs.Name.{IsFileName};
ghost use Rattle.ix_types.specs.Row.{text_cmp};
ghost use Rattle.ix_record.specs.Whole.{IsWhole};
ghost use Rattle.ix_unit.specs.Value.{IsValidUnit, IsValidRecordDep};
ghost use Rattle.ix_model.specs.SortedSet.{sorted_set};
ghost use Rattle.ix_plan.specs.Keeps.{IsUnitPlan, IsRecordPlan};
ghost use Rattle.ix_jobs.specs.Made.{made_of, shown, dep_of, body_of, bytes_of, body_cmp};
ghost use Rattle.ix_jobs.specs.Rules.{HasRoom, RecordHasRoom};
ghost use Rattle.ix_jobs.specs.Laws.{IsWrittenIn};
ghost use Rattle.ix_jobs.specs.Named.{as_body};

use crate::records::record_of;
use crate::sets::sorted;
use crate::units::unit_with;
use ix_plan::{RecordPlan, UnitPlan};
use ix_record::{Body, encode};
use ix_types::{FileName, Memory, Naming, Seq};
use ix_unit::{RecordDep, UnitValue};
use std::alloc::Global;
use std::sync::Arc;

/// What a compile job writes: its unit, the names of its records, and their files. Names rise; files rise by name and then bytes.
#[derive(Debug, Drop)]
pub struct JobPlan {
    pub unit: Arc<UnitValue>,
    pub names: Seq<FileName>,
    pub bodies: Seq<Body>,
}

/// A record file, in the order in which files are written.
#[derive(Debug, Drop, PartialEq, Eq, PartialOrd, Ord)]
pub(crate) struct NamedBytes {
    name: FileName,
    bytes: Seq<u8>,
}

/// A record's dependency, and its file.
#[derive(Debug, Drop)]
struct Written {
    dep: RecordDep,
    file: NamedBytes,
}

/// The dependencies and files of records, in the plan's order.
#[derive(Debug, Drop)]
struct Files {
    deps: Vec<RecordDep>,
    files: Vec<NamedBytes>,
}

impl JobPlan {
    /// What the job of a plan writes. Refuses for want of memory alone.
    pub fn make<N: Naming>(alloc: Global, plan: &UnitPlan, naming: &N) -> Result<JobPlan, Memory>
        requires rules { IsUnitPlan plan.now }
        requires room { HasRoom plan.now }
        ensures made { IfOk result (λ job. shown job ≡ made_of N.name_of plan.now) }
        ensures valid { IfOk result (λ job. IsValidUnit job.unit.value) }
        ensures whole { IfOk result (λ job. AllByRecursion (IsWhole N.name_of) job.bodies) }
        ensures written { IfOk result (λ job. AllByRecursion (IsWrittenIn job.bodies) job.unit.value.records) }
    {
        let written = files_of(alloc, plan.records.as_slice(), naming)?;
        let names = names_of(alloc, &written.files)?;
        let unit = unit_with(alloc, plan, written.deps)?;
        let bodies = bodies_of(alloc, set_of_files(written.files))?;
        Ok(JobPlan {
            unit: Arc::new(alloc, unit)?,
            names: Seq::of(set_of_names(names)),
            bodies: Seq::of(bodies),
        })
    }
}

/// The dependencies and files of records.
fn files_of<N: Naming>(alloc: Global, plans: &[RecordPlan], naming: &N) -> Result<Files, Memory>
    requires rules { AllByRecursion IsRecordPlan plans.now }
    requires room { AllByRecursion RecordHasRoom plans.now }
    ensures deps { IfOk result (λ all. all.deps.items ≡ map (dep_of N.name_of) plans.now) }
    ensures files { IfOk result (λ all. map as_body all.files.items ≡ map (body_of N.name_of) plans.now) }
    ensures named { IfOk result (λ all. AllByRecursion (λ plan. IsFileName (N.name_of (bytes_of plan))) plans.now) }
{
    let mut deps = Vec::new(alloc);
    let mut files = Vec::new(alloc);
    for plan in plans {
        let written = written_by(alloc, plan, naming)?;
        deps.push(written.dep)?;
        files.push(written.file)?;
    }
    Ok(Files { deps, files })
}

/// A record's dependency, and its file.
fn written_by<N: Naming>(alloc: Global, plan: &RecordPlan, naming: &N) -> Result<Written, Memory>
    requires rules { IsRecordPlan plan.now }
    requires room { RecordHasRoom plan.now }
    ensures dep { IfOk result (λ written. written.dep ≡ dep_of N.name_of plan.now) }
    ensures file { IfOk result (λ written. as_body written.file ≡ body_of N.name_of plan.now) }
    ensures named { IfOk result (λ written. IsFileName (N.name_of (bytes_of plan.now))) }
{
    let bytes = file_bytes(alloc, plan)?;
    let name = naming.name(bytes.as_slice());
    let _digits = name.bytes();
    Ok(Written {
        dep: RecordDep {
            path: plan.path.clone()?,
            system: plan.system,
            name,
        },
        file: NamedBytes { name, bytes },
    })
}

/// The bytes of a record's file.
#[tactic(auto, unfolding(crate::specs::Made::bytes_of))]
fn file_bytes(alloc: Global, plan: &RecordPlan) -> Result<Seq<u8>, Memory>
    requires rules { IsRecordPlan plan.now }
    requires room { RecordHasRoom plan.now }
    ensures { IfOk result (λ bytes. bytes ≡ bytes_of plan.now) }
{
    let value = record_of(alloc, plan)?;
    encode(alloc, &value)
}

/// The names of the files.
fn names_of(alloc: Global, files: &[NamedBytes]) -> Result<Vec<FileName>, Memory>
    ensures { IfOk result (λ names. names.items ≡ map (λ body. body.name) (map as_body files.now)) }
{
    let mut names = Vec::new(alloc);
    for file in files {
        names.push(file.name)?;
    }
    Ok(names)
}

/// The files, by name and then bytes, each once.
fn set_of_files(files: Vec<NamedBytes>) -> Vec<NamedBytes>
    ensures { map as_body result.items ≡ sorted_set body_cmp (map as_body files.items) }
{
    sorted(files)
}

/// The names, rising, each once.
fn set_of_names(names: Vec<FileName>) -> Vec<FileName>
    ensures { result.items ≡ sorted_set text_cmp names.items }
{
    sorted(names)
}

/// The files as bodies, in the same order.
fn bodies_of(alloc: Global, files: Vec<NamedBytes>) -> Result<Vec<Body>, Memory>
    ensures { IfOk result (λ bodies. bodies.items ≡ map as_body files.items) }
{
    let bodies = files
        .into_iter()
        .map(|file| Body {
            name: file.name,
            bytes: file.bytes,
        })
        .collect(alloc)?;
    Ok(bodies)
}
