//! One folder in the place where the tests run.
use crate::Folder;
use ix_dir::{Area, Dir};
use ix_types::FileName;
use std::alloc::Global;
use std::fs;
use std::os::unix::fs::symlink;
use std::process::Abort;

const FOLDER: &str = "ix_host_test";

const LINK: &str = "ix_host_test/records/ab";

const SLOT: &str = "ix_host_test/slots/3";

fn name(rt: &impl Abort, digits: &str) -> FileName {
    FileName::read(digits.as_bytes()).expect(rt, "a name")
}

/// Whether a file is put and synced.
fn puts<D: Dir>(alloc: Global, dir: &mut D, name: FileName, bytes: &[u8]) -> bool {
    dir.reserve(alloc, 2).is_ok()
        && dir.stage(alloc, 3, bytes).is_ok()
        && dir.rename(3, Area::Records, name).is_ok()
        && dir.sync(Area::Records).is_ok()
}

/// Whether a name is taken away.
fn removes<D: Dir>(alloc: Global, dir: &mut D, name: FileName) -> bool {
    dir.reserve(alloc, 1).is_ok() && dir.remove(Area::Records, name).is_ok()
}

/// Whether a read gives these bytes, or finds nothing where none are said.
fn gives<D: Dir>(alloc: Global, dir: &mut D, name: FileName, bytes: Option<&[u8]>) -> bool {
    match dir.read(alloc, Area::Records, name) {
        Ok(Some(found)) => bytes == Some(found.as_slice()),
        Ok(None) => bytes.is_none(),
        Err(_) => false,
    }
}

/// Whether the records are these many, the first of this name and stamp.
fn lists<D: Dir>(alloc: Global, dir: &mut D, count: usize, name: FileName, stamp: u64) -> bool {
    match dir.list(alloc, Area::Records) {
        Ok(listed) => match listed.as_slice() {
            [first, rest @ ..] => {
                rest.len() + 1 == count && first.name == name && first.stamp == stamp
            }
            [] => count == 0,
        },
        Err(_) => false,
    }
}

#[test]
fn what_is_put_is_listed_and_read_and_a_link_is_passed_over(rt: HostRuntime) {
    let _ = fs::remove_dir_all(&rt, FOLDER);
    let (alloc, one, other, link) = (
        rt.alloc(),
        name(&rt, "0a"),
        name(&rt, "0b"),
        name(&rt, "ab"),
    );
    let mut folder = Folder::new(rt, FOLDER).expect(&rt, "memory");
    assert!(rt; lists(alloc, &mut folder, 0, one, 0));
    assert!(rt; puts(alloc, &mut folder, one, b"ab"));
    assert!(rt; puts(alloc, &mut folder, one, b"abc"));
    assert!(rt; puts(alloc, &mut folder, other, b""));
    assert!(rt; lists(alloc, &mut folder, 2, one, 2));
    let mut next = Folder::new(&rt, FOLDER).expect(&rt, "memory");
    assert!(rt; symlink(&rt, SLOT, LINK).is_ok());
    assert!(rt; fs::write(&rt, SLOT, b"left by a stop".as_slice()).is_ok());
    assert!(rt; lists(alloc, &mut next, 2, one, 0));
    assert!(rt; gives(alloc, &mut next, one, Some(b"abc")));
    assert!(rt; gives(alloc, &mut next, link, None));
    assert!(rt; puts(alloc, &mut next, link, b"d"));
    assert!(rt; gives(alloc, &mut next, link, Some(b"d")));
    assert!(rt; removes(alloc, &mut next, one) && removes(alloc, &mut next, one));
    assert!(rt; lists(alloc, &mut next, 2, other, 0));
    let _ = fs::remove_dir_all(&rt, FOLDER);
}
