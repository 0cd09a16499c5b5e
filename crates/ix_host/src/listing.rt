//! The names that stand in a folder.
ghost use Rattle.std.specs.Prelude.{◌≡◌, ◌≤◌, length, IsTrue, IfOk, OnOk};
ghost use Rattle.std.specs.Ordering.{is_lt};
ghost use Rattle.ix_dir.specs.Files.{IsRising};
ghost use Rattle.ix_types.specs.Row.{text_cmp};

use crate::system::{or_failed, read_some, zeros};
use ix_dir::{DirError, Listed};
use ix_types::FileName;
use std::alloc::Global;
use std::io::Read;
use std::rt::Files;

/// The most bytes of names that are asked for at once.
const CHUNK: usize = 65_536;

/// The file names among the names in the folder at the path, in any order. A link at the path isn't followed. Other names are
/// passed over, and take no memory.
pub fn file_names<R: Files>(alloc: Global, rt: &R, path: &str) -> Result<Vec<FileName>, DirError> {
    let mut folder = or_failed(rt.open_dir(path))?;
    let mut chunk = zeros(alloc, CHUNK)?;
    let mut names = Vec::new(alloc);
    for _ in 0..u64::MAX {
        let taken = read_some(&mut folder, &mut chunk)?;
        if taken == 0 {
            return Ok(names);
        }
        push_names(&mut names, &chunk[..taken])?;
    }
    Err(DirError::Failed)
}

/// Appends the file names among names that each end with a 0.
fn push_names(names: &mut Vec<FileName>, chunk: &[u8]) -> Result<(), DirError> {
    for name in chunk.split(|byte| *byte == 0) {
        if let Some(name) = FileName::read(name) {
            names.push(name)?;
        }
    }
    Ok(())
}

/// These in rising order of their names. A folder that lists a name twice has failed.
pub fn in_rising_order(mut listed: Vec<Listed>) -> Result<Vec<Listed>, DirError>
    ensures { IfOk result (λ listed. IsRising listed.items) }
{
    listed.sort_unstable();
    if is_rising(&listed) {
        Ok(listed)
    } else {
        Err(DirError::Failed)
    }
}

/// Whether each name is greater than the one before it.
fn is_rising(listed: &[Listed]) -> bool
    ensures { IsTrue result → IsRising listed.now }
{
    listed.is_sorted_by(
        |a, b| -> bool
            ensures { result ≡ is_lt (text_cmp a.now.name b.now.name) }
        { a.name.cmp(&b.name).is_lt() },
    )
}
