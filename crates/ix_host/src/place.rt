//! The calls of a directory as calls of the system. No clause says what they do to the files: this is what is trusted.
ghost use Rattle.std.specs.Prelude.{IfOk};
ghost use Rattle.ix_dir.specs.Files.{IsRising};

use crate::area_folder::AreaFolder;
use crate::listing::{file_names, in_rising_order};
use crate::system::{MAX_FILE, file_bytes, open_folder, or_failed, plain_file, write_new_file};
use ix_dir::{Area, DirError, Listed};
use ix_types::{FileName, Seq};
use std::alloc::{AllocError, Global};
use std::fmt::Write;
use std::fs::OpenFile;
use std::io;
use std::io::ErrorKind;
use std::rt::Files;

/// The bytes that a path needs behind the folder's: a folder, a name of 64 digits, and two slashes.
const BELOW: usize = 80;

/// The names of the three folders.
const UNITS: &str = "units";

const RECORDS: &str = "records";

const SLOTS: &str = "slots";

/// Whether the folders are there.
#[derive(Clone, Copy, PartialEq, Eq)]
enum Folders {
    /// No call was made yet.
    Unknown,
    /// They are there, and stay so across a crash.
    Made,
    /// A sync of a folder above them failed.
    Lost,
}

/// A real folder with the folders `units`, `records` and `slots`.
#[derive(Drop)]
pub struct Place<R: Files> {
    rt: R,
    folder: String,
    folders: Folders,
    units: AreaFolder<R>,
    records: AreaFolder<R>,
    /// Room for paths.
    path: String,
    target: String,
    /// How many renames were made.
    renames: u64,
    /// For how many renames there is room.
    room: u32,
}

impl<R: Files> Place<R> {
    /// The folder at the path. It isn't looked at yet.
    pub fn new(alloc: Global, rt: R, path: &str) -> Result<Place<R>, AllocError>
    where
        R: Drop,
    {
        Ok(Place {
            rt,
            folder: String::from_str(alloc, path)?,
            folders: Folders::Unknown,
            units: AreaFolder::new(alloc),
            records: AreaFolder::new(alloc),
            path: String::with_capacity(alloc, path.len() + BELOW)?,
            target: String::with_capacity(alloc, path.len() + BELOW)?,
            renames: 0,
            room: 0,
        })
    }

    /// Makes room for so many renames.
    pub fn reserve(&mut self, renames: u32) -> Result<(), AllocError> {
        self.units.reserve(renames as usize)?;
        self.records.reserve(renames as usize)?;
        self.room = renames;
        Ok(())
    }

    /// The plain files of an area in rising order of their names, with their stamps.
    pub fn list(&mut self, alloc: Global, area: Area) -> Result<Vec<Listed>, DirError>
        ensures { IfOk result (λ listed. IsRising listed.items) }
    {
        self.make_folders()?;
        self.set_folder_path(folder_of(area))?;
        let names = file_names(alloc, &self.rt, self.path.as_str())?;
        let mut listed = Vec::with_capacity(alloc, names.len())?;
        for name in &names {
            if let Some(stamp) = self.stamp(area, name)? {
                listed.push(Listed { name: *name, stamp })?;
            }
        }
        in_rising_order(listed)
    }

    /// The stamp of a name, None where it has no plain file. One that is known is not looked at again.
    fn stamp(&mut self, area: Area, name: &FileName) -> Result<Option<u64>, DirError> {
        let known = match area {
            Area::Units => self.units.stamp(name),
            Area::Records => self.records.stamp(name),
        };
        if known.is_some() {
            return Ok(known);
        }
        self.set_file_path(area, name)?;
        if plain_file(&self.rt, self.target.as_str())?.is_none() {
            return Ok(None);
        }
        match area {
            Area::Units => self.units.know(*name, self.room)?,
            Area::Records => self.records.know(*name, self.room)?,
        }
        Ok(Some(0))
    }

    /// The bytes of a plain file, None where the name has none.
    pub fn read(
        &mut self,
        alloc: Global,
        area: Area,
        name: &FileName,
    ) -> Result<Option<Seq<u8>>, DirError> {
        self.make_folders()?;
        self.set_file_path(area, name)?;
        Ok(file_bytes(alloc, &self.rt, self.target.as_str())?.map(Seq::of))
    }

    /// Makes the slot's file, writes it whole and syncs it.
    pub fn stage(&mut self, slot: u32, bytes: &[u8]) -> Result<(), DirError> {
        if bytes.len() as u64 > MAX_FILE {
            return Err(DirError::Failed);
        }
        self.make_folders()?;
        self.set_slot_path(slot)?;
        write_new_file(&self.rt, self.path.as_str(), bytes)
    }

    /// Renames the slot's file to the name, which has a new stamp then.
    pub fn rename(&mut self, slot: u32, area: Area, name: &FileName) -> Result<(), DirError> {
        self.make_folders()?;
        let Some(stamp) = self.renames.checked_add(1) else {
            return Err(DirError::Failed);
        };
        self.renames = stamp;
        self.set_slot_path(slot)?;
        self.set_file_path(area, name)?;
        let (from, to) = (self.path.as_str(), self.target.as_str());
        match area {
            Area::Units => self.units.rename(&self.rt, from, to, *name, stamp),
            Area::Records => self.records.rename(&self.rt, from, to, *name, stamp),
        }
    }

    /// Takes the name away. One that isn't there is no failure.
    pub fn remove(&mut self, area: Area, name: &FileName) -> Result<(), DirError> {
        self.make_folders()?;
        self.set_file_path(area, name)?;
        match self.rt.remove_file(self.target.as_str()) {
            Err(fault) if fault.kind() != ErrorKind::NotFound => return Err(DirError::Failed),
            _ => {}
        }
        match area {
            Area::Units => self.units.forget(name),
            Area::Records => self.records.forget(name),
        }
        Ok(())
    }

    /// Syncs the folder of the area.
    pub fn sync(&mut self, area: Area) -> Result<(), DirError> {
        self.make_folders()?;
        self.set_folder_path(folder_of(area))?;
        match area {
            Area::Units => self.units.sync(&self.rt, self.path.as_str()),
            Area::Records => self.records.sync(&self.rt, self.path.as_str()),
        }
    }

    /// Makes the folders where they are missing, at the first call that gets here.
    fn make_folders(&mut self) -> Result<(), DirError> {
        match self.folders {
            Folders::Made => Ok(()),
            Folders::Lost => Err(DirError::Failed),
            Folders::Unknown => {
                or_failed(make_folder(&self.rt, self.folder.as_str()))?;
                if self.lacks_a_folder()? {
                    self.sync_above("/..")?;
                    self.make_missing()?;
                }
                self.sync_above("")?;
                self.folders = Folders::Made;
                Ok(())
            }
        }
    }

    /// Whether one of the three folders isn't there. Anything else at its name is a failure, a link to a folder too.
    fn lacks_a_folder(&mut self) -> Result<bool, DirError> {
        let mut lacks = false;
        for name in [UNITS, RECORDS, SLOTS] {
            self.set_folder_path(name)?;
            match self.rt.symlink_metadata(self.path.as_str()) {
                Ok(found) if found.is_dir() => {}
                Err(fault) if fault.kind() == ErrorKind::NotFound => lacks = true,
                _ => return Err(DirError::Failed),
            }
        }
        Ok(lacks)
    }

    fn make_missing(&mut self) -> Result<(), DirError> {
        for name in [UNITS, RECORDS, SLOTS] {
            self.set_folder_path(name)?;
            or_failed(make_folder(&self.rt, self.path.as_str()))?;
        }
        Ok(())
    }

    /// Syncs the folder that is reached from this one by these letters. Once that failed, every call fails.
    fn sync_above(&mut self, way: &str) -> Result<(), DirError> {
        self.path.clear();
        self.path.push_str(self.folder.as_str())?;
        self.path.push_str(way)?;
        let folder = or_failed(open_folder(&self.rt, self.path.as_str()))?;
        let synced = folder.sync_all();
        if synced.is_err() {
            self.folders = Folders::Lost;
        }
        or_failed(synced)
    }

    /// The path of one of the three folders.
    fn set_folder_path(&mut self, folder: &str) -> Result<(), AllocError> {
        set_path(&mut self.path, self.folder.as_str(), folder)
    }

    /// The path of a slot's file.
    fn set_slot_path(&mut self, slot: u32) -> Result<(), DirError> {
        self.set_folder_path(SLOTS)?;
        match write!(self.path, "/{slot}") {
            Ok(()) => Ok(()),
            Err(_) => Err(DirError::Memory),
        }
    }

    /// The path of a name's file, as the target.
    fn set_file_path(&mut self, area: Area, name: &FileName) -> Result<(), DirError> {
        set_path(&mut self.target, self.folder.as_str(), folder_of(area))?;
        self.target.push('/')?;
        match str::from_utf8(name.bytes()) {
            Ok(digits) => self.target.push_str(digits)?,
            Err(_) => return Err(DirError::Failed),
        }
        Ok(())
    }
}

fn folder_of(area: Area) -> &'static str {
    match area {
        Area::Units => UNITS,
        Area::Records => RECORDS,
    }
}

/// The path of what stands in the folder under this name.
fn set_path(path: &mut String, folder: &str, name: &str) -> Result<(), AllocError> {
    path.clear();
    path.push_str(folder)?;
    path.push('/')?;
    path.push_str(name)
}

/// Makes the folder, unless something stands there.
fn make_folder<R: Files>(rt: &R, path: &str) -> io::Result<()> {
    match rt.create_dir(path) {
        Err(fault) if fault.kind() == ErrorKind::AlreadyExists => Ok(()),
        answer => answer,
    }
}
