//! Reads a unit from the left, up to the first fault.
ghost use Rattle.std.specs.Prelude.{◌≡◌, ◌⊎◌, ◌≤◌, length, IfOk, IfErr, Some, Ok, Err};
ghost use Rattle.ix_unit.specs.Gives.{Gives, GivesSeal};
ghost use Rattle.ix_unit.specs.declared.value.UnitValue.{UnitValue};
ghost use Rattle.ix_unit.specs.ByKind.{by_kind};
ghost use Rattle.ix_unit.specs.Reading.{number_at, path_at, any_text_at, magic_at, flag_at, line_at, name_at, record_dep_at, file_dep_at, dependency_of, dependency_at, dependencies_at, include_at, includes_at, unit_fields_at, seal_fault, unit_fault};
ghost use Rattle.ix_unit.specs.Spelling.{UnitSpelling};

use crate::dependency::{ByKind, Dependency, FILE, RECORD, UNIT};
use crate::fault::UnitError;
use crate::order::{dependency_follows, include_follows};
use crate::value::{FileDep, Include, MAGIC, RecordDep, UnitValue};
use ix_types::{FileName, Seq, Text};
use ix_wire::Cursor;
use sha2::{Digest, Sha256};
use std::alloc::Global;

#[tactic(auto, unfolding(crate::specs::Reading::number_at))]
fn read_number(cursor: &mut Cursor<'_>) -> Result<u32, UnitError>
    ensures { Gives result cursor.new (number_at cursor.old) }
{
    Ok(cursor.u32()?)
}

/// Reads a text of at least one byte.
#[tactic(auto, unfolding(crate::specs::Reading::path_at))]
fn read_path(alloc: Global, cursor: &mut Cursor<'_>) -> Result<Text, UnitError>
    ensures { Gives result cursor.new (path_at cursor.old) }
{
    Ok(cursor.text(alloc, false)?)
}

/// Reads a text that may be empty.
#[tactic(auto, unfolding(crate::specs::Reading::any_text_at))]
fn read_text(alloc: Global, cursor: &mut Cursor<'_>) -> Result<Text, UnitError>
    ensures { Gives result cursor.new (any_text_at cursor.old) }
{
    Ok(cursor.text(alloc, true)?)
}

#[tactic(auto, unfolding(crate::specs::Reading::magic_at))]
fn read_magic(cursor: &mut Cursor<'_>) -> Result<u32, UnitError>
    ensures { Gives result cursor.new (magic_at cursor.old) }
{
    let number = read_number(cursor)?;
    if number == MAGIC {
        Ok(number)
    } else {
        Err(UnitError::BadMagic)
    }
}

#[tactic(auto, unfolding(crate::specs::Reading::flag_at))]
fn read_flag(cursor: &mut Cursor<'_>) -> Result<bool, UnitError>
    ensures { Gives result cursor.new (flag_at cursor.old) }
{
    let at = cursor.at();
    let number = read_number(cursor)?;
    if number > 1 {
        return Err(UnitError::BadField { at });
    }
    Ok(number == 1)
}

#[tactic(auto, unfolding(crate::specs::Reading::line_at))]
fn read_line(cursor: &mut Cursor<'_>) -> Result<u32, UnitError>
    ensures { Gives result cursor.new (line_at cursor.old) }
{
    let at = cursor.at();
    let line = read_number(cursor)?;
    if line == 0 {
        return Err(UnitError::BadField { at });
    }
    Ok(line)
}

/// Reads the name of a record file, which is spelled as a text.
#[tactic(auto, unfolding(crate::specs::Reading::name_at))]
fn read_name(alloc: Global, cursor: &mut Cursor<'_>) -> Result<FileName, UnitError>
    ensures { Gives result cursor.new (name_at cursor.old) }
{
    let at = cursor.at();
    let text = read_path(alloc, cursor)?;
    match FileName::read(text.bytes()) {
        Some(name) => Ok(name),
        None => Err(UnitError::BadField { at }),
    }
}

#[tactic(auto, unfolding(crate::specs::Reading::record_dep_at))]
fn read_record_dep(alloc: Global, cursor: &mut Cursor<'_>) -> Result<RecordDep, UnitError>
    ensures { Gives result cursor.new (record_dep_at cursor.old) }
{
    let path = read_path(alloc, cursor)?;
    let system = read_flag(cursor)?;
    let name = read_name(alloc, cursor)?;
    Ok(RecordDep { path, system, name })
}

#[tactic(auto, unfolding(crate::specs::Reading::file_dep_at))]
fn read_file_dep(alloc: Global, cursor: &mut Cursor<'_>) -> Result<FileDep, UnitError>
    ensures { Gives result cursor.new (file_dep_at cursor.old) }
{
    let path = read_path(alloc, cursor)?;
    let system = read_flag(cursor)?;
    Ok(FileDep { path, system })
}

#[tactic(auto, unfolding(crate::specs::Reading::dependency_at, crate::specs::Reading::dependency_of))]
fn read_dependency(alloc: Global, cursor: &mut Cursor<'_>) -> Result<Dependency, UnitError>
    ensures { Gives result cursor.new (dependency_at cursor.old) }
{
    let at = cursor.at();
    match read_number(cursor)? {
        UNIT => Ok(Dependency::Unit(read_path(alloc, cursor)?)),
        RECORD => Ok(Dependency::Record(read_record_dep(alloc, cursor)?)),
        FILE => Ok(Dependency::File(read_file_dep(alloc, cursor)?)),
        _ => Err(UnitError::BadField { at }),
    }
}

#[tactic(auto, unfolding(crate::specs::Reading::dependencies_at))]
fn read_dependencies(
    alloc: Global,
    cursor: &mut Cursor<'_>,
    count: u32,
) -> Result<Seq<Dependency>, UnitError>
    ensures { Gives result cursor.new (dependencies_at count cursor.old) }
{
    let mut dependencies = Vec::new(alloc);
    for _ in 0..count {
        let at = cursor.at();
        let dependency = read_dependency(alloc, cursor)?;
        if !dependency_follows(&dependencies, &dependency) {
            return Err(UnitError::OutOfOrder { at });
        }
        dependencies.push(dependency)?;
    }
    Ok(Seq::of(dependencies))
}

/// Takes the dependencies apart by kind.
fn part_by_kind(alloc: Global, dependencies: Seq<Dependency>) -> Result<ByKind, UnitError>
    ensures value { IfOk result (λ parts. parts ≡ by_kind dependencies) }
    ensures memory { IfErr result (λ e. e ≡ UnitError.Memory) }
{
    let mut units = Vec::new(alloc);
    let mut records = Vec::new(alloc);
    let mut files = Vec::new(alloc);
    for dependency in dependencies.into_vec() {
        match dependency {
            Dependency::Unit(output) => units.push(output)?,
            Dependency::Record(dep) => records.push(dep)?,
            Dependency::File(dep) => files.push(dep)?,
        }
    }
    Ok(ByKind {
        units: Seq::of(units),
        records: Seq::of(records),
        files: Seq::of(files),
    })
}

#[tactic(auto, unfolding(crate::specs::Reading::include_at))]
fn read_include(alloc: Global, cursor: &mut Cursor<'_>) -> Result<Include, UnitError>
    ensures { Gives result cursor.new (include_at cursor.old) }
{
    let from = read_path(alloc, cursor)?;
    let line = read_line(cursor)?;
    let to = read_path(alloc, cursor)?;
    Ok(Include { from, line, to })
}

#[tactic(auto, unfolding(crate::specs::Reading::includes_at))]
fn read_includes(
    alloc: Global,
    cursor: &mut Cursor<'_>,
    count: u32,
) -> Result<Seq<Include>, UnitError>
    ensures { Gives result cursor.new (includes_at count cursor.old) }
{
    let mut includes = Vec::new(alloc);
    for _ in 0..count {
        let at = cursor.at();
        let include = read_include(alloc, cursor)?;
        if !include_follows(&includes, &include) {
            return Err(UnitError::OutOfOrder { at });
        }
        includes.push(include)?;
    }
    Ok(Seq::of(includes))
}

/// Reads all that stands before the digest.
#[tactic(auto, unfolding(crate::specs::Reading::unit_fields_at))]
fn read_unit(alloc: Global, cursor: &mut Cursor<'_>) -> Result<UnitValue, UnitError>
    ensures { Gives result cursor.new (unit_fields_at cursor.old) }
{
    read_magic(cursor)?;
    let output = read_path(alloc, cursor)?;
    let main_file = read_text(alloc, cursor)?;
    let module_name = read_text(alloc, cursor)?;
    let system = read_flag(cursor)?;
    let dependency_count = read_number(cursor)?;
    let dependencies = read_dependencies(alloc, cursor, dependency_count)?;
    let include_count = read_number(cursor)?;
    let includes = read_includes(alloc, cursor, include_count)?;
    let parts = part_by_kind(alloc, dependencies)?;
    Ok(UnitValue {
        output,
        main_file,
        module_name,
        system,
        units: parts.units,
        records: parts.records,
        files: parts.files,
        includes,
    })
}

/// Wants that the digest of the bytes before `at` stands there, and nothing behind it.
#[tactic(auto, unfolding(crate::specs::Reading::seal_fault))]
fn check_seal(bytes: &[u8], at: u64) -> Result<(), UnitError>
    requires { at ≤ length bytes.now }
    ensures { GivesSeal result (seal_fault bytes.now at) }
{
    let (body, rest) = bytes.split_at(at as usize);
    if rest.len() < 32 {
        return Err(UnitError::Short);
    }
    let (digest, left) = rest.split_at(32);
    if digest != Sha256::digest(body).as_slice() {
        return Err(UnitError::BadDigest);
    }
    if !left.is_empty() {
        return Err(UnitError::Trailing { at: at + 32 });
    }
    Ok(())
}

/// The value that the bytes spell, all of the bytes.
pub fn decode(alloc: Global, bytes: &[u8]) -> Result<UnitValue, UnitError>
    // What is read is spelled so.
    ensures found { IfOk result (UnitSpelling bytes.now) }
    // What is spelled so is read, unless memory runs out.
    ensures only { (v : UnitValue) → UnitSpelling bytes.now v → (result ≡ Ok v) ⊎ (result ≡ Err UnitError.Memory) }
    // Else it is the first fault.
    ensures fault { IfErr result (λ e. (e ≡ UnitError.Memory) ⊎ (unit_fault bytes.now ≡ Some e)) }
{
    let mut cursor = Cursor::new(bytes);
    let unit = read_unit(alloc, &mut cursor)?;
    check_seal(bytes, cursor.at())?;
    Ok(unit)
}
