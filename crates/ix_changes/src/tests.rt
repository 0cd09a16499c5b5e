//! Each change once, over a directory in memory.
use super::*;
use ix_cabinet::Settled;
use ix_dir::{Area, Dir, MemoryDir};
use ix_record::Body;
use ix_shelf::{Put, Shelf};
use ix_types::{FileName, Seq};
use std::alloc::Global;
use std::process::Abort;

fn name(rt: &impl Abort, bytes: &[u8]) -> FileName {
    FileName::read(bytes).expect(rt, "a name")
}

/// A file of these bytes is put into the records.
fn is_put<D: Dir>(alloc: Global, rt: &impl Abort, dir: &mut D, shelf: &mut Shelf) -> bool {
    dir.reserve(alloc, 1).expect(rt, "room");
    let body = Body {
        name: name(rt, b"ab"),
        bytes: Seq::of(Vec::from_slice(alloc, b"record").expect(rt, "memory")),
    };
    put(alloc, dir, shelf, 0, &body, false) == Ok(Put::Written)
}

/// A staged file comes to a name of the units.
fn is_published<D: Dir>(
    alloc: Global,
    rt: &impl Abort,
    dir: &mut D,
    shelf: &mut Shelf,
    pending: bool,
) -> Option<Settled> {
    dir.reserve(alloc, 4).expect(rt, "room");
    if dir.stage(alloc, 1, b"unit").is_err() {
        return None;
    }
    publish(dir, shelf, 1, name(rt, b"cd"), pending).ok()
}

/// How many files stand in an area.
fn count<D: Dir>(alloc: Global, rt: &impl Abort, dir: &mut D, area: Area) -> usize {
    dir.list(alloc, area).expect(rt, "a list").as_slice().len()
}

#[test]
fn each_change_is_made_once(rt: HostRuntime) {
    let alloc = rt.alloc();
    let fails = Vec::from_slice(alloc, &[7]).expect(&rt, "memory");
    let mut dir = MemoryDir::failing(alloc, Seq::of(fails));
    let mut shelf = Shelf::new();
    // A read, a stage, a rename; a stage, a sync of the records, a rename, and a sync of the units that fails.
    assert!(rt; is_put(alloc, &rt, &mut dir, &mut shelf));
    assert!(rt; is_published(alloc, &rt, &mut dir, &mut shelf, false) == Some(Settled::Unsynced));
    assert!(rt; count(alloc, &rt, &mut dir, Area::Units) == 1);
    dir.reserve(alloc, 3).expect(&rt, "room");
    assert!(rt; remove(&mut dir, &mut shelf, name(&rt, b"cd"), true) == Ok(Settled::Synced));
    assert!(rt; count(alloc, &rt, &mut dir, Area::Units) == 0);
    dir.reserve(alloc, 2).expect(&rt, "room");
    assert!(rt; collect(&mut dir, &mut shelf, Some(name(&rt, b"ab")), false).is_ok());
    assert!(rt; count(alloc, &rt, &mut dir, Area::Records) == 0);
}
