//! The folder of an area: what is known of its files, and how it is synced.
ghost use Rattle.std.specs.Prelude.{◌<◌, ◌≡◌};
ghost use Rattle.indexmap.specs.IndexMap.{spare};

use crate::system::{open_folder, or_failed};
use indexmap::IndexMap;
use ix_dir::DirError;
use ix_types::FileName;
use std::alloc::{AllocError, Global};
use std::fs::OpenFile;
use std::rt::Files;

/// What is kept of an area's folder.
#[derive(Drop)]
pub struct AreaFolder<R: Files> {
    /// The folder, once it was synced.
    open: Option<R::File>,
    /// Whether a sync of it failed.
    is_lost: bool,
    /// The stamps of names that are known to have a plain file: 0 where it was there before.
    stamps: IndexMap<FileName, u64>,
}

impl<R: Files> AreaFolder<R> {
    /// A folder of which nothing is known. Takes no memory.
    pub fn new(alloc: Global) -> AreaFolder<R> {
        AreaFolder {
            open: None,
            is_lost: false,
            stamps: IndexMap::new(alloc),
        }
    }

    /// Makes room for so many more names.
    pub fn reserve(&mut self, names: usize) -> Result<(), AllocError> {
        self.stamps.reserve(names)
    }

    /// The stamp of a name that is known to have a plain file.
    pub fn stamp(&self, name: &FileName) -> Option<u64> {
        self.stamps.get(name).copied()
    }

    /// Knows that the name has a plain file that was there before. Afterwards there is room for so many names.
    pub fn know(&mut self, name: FileName, room: u32) -> Result<(), AllocError> {
        self.stamps.reserve(room as usize + 1)?;
        put(&mut self.stamps, name, 0);
        Ok(())
    }

    /// Renames a file to the name's path, which has this stamp then.
    pub fn rename(
        &mut self,
        rt: &R,
        from: &str,
        to: &str,
        name: FileName,
        stamp: u64,
    ) -> Result<(), DirError> {
        self.stamps.reserve(1)?;
        or_failed(rt.rename(from, to))?;
        put(&mut self.stamps, name, stamp);
        Ok(())
    }

    /// Knows nothing of the name any more.
    pub fn forget(&mut self, name: &FileName) {
        let _known = self.stamps.swap_remove(name);
    }

    /// Syncs the folder, which stands at the path. Once that failed it fails for ever: the system may have dropped what it was to
    /// write, and then answers the next sync as if nothing was to be written.
    pub fn sync(&mut self, rt: &R, path: &str) -> Result<(), DirError> {
        if self.is_lost {
            return Err(DirError::Failed);
        }
        let synced = match &self.open {
            Some(folder) => folder.sync_all(),
            None => {
                let folder = or_failed(open_folder(rt, path))?;
                let synced = folder.sync_all();
                self.open = Some(folder);
                synced
            }
        };
        self.is_lost = synced.is_err();
        or_failed(synced)
    }
}

/// Gives a name a stamp, for which there is room.
fn put(stamps: &mut IndexMap<FileName, u64>, name: FileName, stamp: u64)
    requires { 0 < spare stamps.old }
{
    match stamps.insert(name, stamp) {
        Ok(_) => {}
        Err(_) => unreachable!(),
    }
}
