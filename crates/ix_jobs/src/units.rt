//! The unit of a compile job, around its record dependencies.
ghost use Rattle.std.specs.Prelude.{◌≡◌, map, IfOk};
ghost use Rattle.ix_types.specs.Row.{text_cmp};
ghost use Rattle.ix_unit.specs.Order.{record_dep_cmp, file_dep_cmp, include_cmp};
ghost use Rattle.ix_model.specs.SortedSet.{sorted_set};
ghost use Rattle.ix_jobs.specs.Made.{file_of, include_of, unit_with};

use crate::sets::sorted;
use ix_plan::{FilePlan, IncludePlan, UnitPlan};
use ix_types::{Memory, Seq, Text};
use ix_unit::{FileDep, Include, RecordDep, UnitValue};
use std::alloc::{AllocError, Global};

/// The unit of a plan with these record dependencies, each list sorted and without repeats.
pub(crate) fn unit_with(
    alloc: Global,
    plan: &UnitPlan,
    records: Vec<RecordDep>,
) -> Result<UnitValue, Memory>
    ensures { IfOk result (λ unit. unit ≡ unit_with plan.now records.items) }
{
    let units = set_of_texts(alloc, plan.units.as_slice())?;
    let files = set_of_files(alloc, plan.files.as_slice())?;
    let includes = set_of_includes(alloc, plan.includes.as_slice())?;
    Ok(UnitValue {
        output: plan.output.clone()?,
        main_file: plan.main.clone()?,
        module_name: plan.module.clone()?,
        system: plan.system,
        units: Seq::of(units),
        records: Seq::of(set_of_records(records)),
        files: Seq::of(files),
        includes: Seq::of(includes),
    })
}

fn set_of_records(records: Vec<RecordDep>) -> Vec<RecordDep>
    ensures { result.items ≡ sorted_set record_dep_cmp records.items }
{
    sorted(records)
}

fn set_of_texts(alloc: Global, all: &[Text]) -> Result<Vec<Text>, Memory>
    ensures { IfOk result (λ v. v.items ≡ sorted_set text_cmp all.now) }
{
    Ok(sorted(texts(alloc, all)?))
}

fn texts(alloc: Global, all: &[Text]) -> Result<Vec<Text>, Memory>
    ensures { IfOk result (λ v. v.items ≡ all.now) }
{
    let mut copies = Vec::new(alloc);
    for text in all {
        copies.push(text.clone()?)?;
    }
    Ok(copies)
}

fn set_of_files(alloc: Global, plans: &[FilePlan]) -> Result<Vec<FileDep>, Memory>
    ensures { IfOk result (λ v. v.items ≡ sorted_set file_dep_cmp (map file_of plans.now)) }
{
    Ok(sorted(files(alloc, plans)?))
}

fn files(alloc: Global, plans: &[FilePlan]) -> Result<Vec<FileDep>, Memory>
    ensures { IfOk result (λ v. v.items ≡ map file_of plans.now) }
{
    let mut files = Vec::new(alloc);
    for plan in plans {
        files.push(file_of(plan)?)?;
    }
    Ok(files)
}

fn file_of(plan: &FilePlan) -> Result<FileDep, AllocError>
    ensures { IfOk result (λ file. file ≡ file_of plan.now) }
{
    Ok(FileDep {
        path: plan.path.clone()?,
        system: plan.system,
    })
}

fn set_of_includes(alloc: Global, plans: &[IncludePlan]) -> Result<Vec<Include>, Memory>
    ensures { IfOk result (λ v. v.items ≡ sorted_set include_cmp (map include_of plans.now)) }
{
    Ok(sorted(includes(alloc, plans)?))
}

fn includes(alloc: Global, plans: &[IncludePlan]) -> Result<Vec<Include>, Memory>
    ensures { IfOk result (λ v. v.items ≡ map include_of plans.now) }
{
    let mut includes = Vec::new(alloc);
    for plan in plans {
        includes.push(include_of(plan)?)?;
    }
    Ok(includes)
}

fn include_of(plan: &IncludePlan) -> Result<Include, AllocError>
    ensures { IfOk result (λ include. include ≡ include_of plan.now) }
{
    Ok(Include {
        from: plan.from.clone()?,
        line: plan.line,
        to: plan.to.clone()?,
    })
}
