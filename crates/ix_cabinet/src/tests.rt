//! What changes and scans of unit files answer, and how many calls of the directory each takes.
ghost use Rattle.std.specs.Prelude.{◌≡◌, IfSome};
ghost use Rattle.ix_types.specs.Name.{sha_name};
ghost use Rattle.ix_unit.specs.Value.{IsValidUnit};
ghost use Rattle.ix_cabinet.specs.Scan.{HoldsUnits};

use super::*;
use ix_dir::{Area, Dir, MemoryDir, Pick, Reads, SteadyDir, UntoldDir};
use ix_types::{Failed, FileName, Naming, Seq, Sha};
use ix_unit::{Batch, UnitPut, UnitValue, decode};
use std::alloc::Global;
use std::process::Abort;

/// The file of a unit of output `abc` and module `M`, but for its digest.
const ABC: [u8; 126] = [
    73, 88, 85, 49, 0, 0, 0, 3, 97, 98, 99, 0, 0, 0, 7, 97, 46, 115, 119, 105, 102, 116, 0, 0, 0,
    1, 77, 0, 0, 0, 0, 0, 0, 0, 1, 0, 0, 0, 2, 0, 0, 0, 7, 97, 46, 115, 119, 105, 102, 116, 0, 0,
    0, 0, 0, 0, 0, 64, 57, 99, 52, 57, 56, 99, 97, 100, 102, 50, 48, 49, 52, 56, 55, 57, 102, 102,
    100, 56, 48, 99, 101, 55, 102, 56, 57, 102, 101, 97, 98, 56, 54, 97, 50, 48, 51, 50, 101, 48,
    98, 54, 98, 49, 48, 100, 54, 55, 54, 50, 56, 101, 48, 55, 56, 54, 50, 52, 97, 53, 54, 51, 102,
    53, 0, 0, 0, 0,
];

/// Its digest.
const ABC_DIGEST: [u8; 32] = [
    137, 251, 82, 56, 69, 223, 144, 181, 175, 244, 98, 98, 248, 199, 227, 216, 135, 134, 149, 122,
    161, 205, 114, 201, 201, 136, 82, 64, 201, 222, 188, 195,
];

/// The digest of that file with `d` in place of `c`, and so of output `abd`.
const ABD_DIGEST: [u8; 32] = [
    92, 222, 71, 69, 228, 188, 117, 53, 195, 231, 180, 73, 108, 73, 141, 146, 217, 190, 163, 224,
    1, 183, 109, 211, 244, 195, 151, 225, 160, 186, 26, 86,
];

/// The digest of that file with `N` in place of `M`.
const MODULE_N_DIGEST: [u8; 32] = [
    26, 137, 178, 145, 230, 184, 145, 97, 209, 184, 165, 46, 239, 95, 6, 148, 43, 198, 222, 117,
    223, 161, 142, 101, 240, 134, 93, 133, 146, 123, 52, 185,
];

/// The names of the two outputs.
const ABC_NAME: &[u8] = b"ba7816bf8f01cfea414140de5dae2223b00361a396177a9cb410ff61f20015ad";

const ABD_NAME: &[u8] = b"a52d159f262b2c6ddb724a61840befc36eb30c88877a4030b65cbe86298449c9";

/// The file with another byte, and its digest.
fn file_with(alloc: Global, rt: &impl Abort, at: usize, byte: u8, digest: &[u8]) -> Vec<u8> {
    let mut file = Vec::from_slice(alloc, &ABC).expect(rt, "memory");
    if let Some(place) = file.get_mut(at) {
        *place = byte;
    }
    file.extend_from_slice(digest).expect(rt, "memory");
    file
}

/// The files of the tests: `abc` and `abd` in module `M`, and `abc` in module `N`.
fn file_of(alloc: Global, rt: &impl Abort, word: &str) -> Vec<u8> {
    match word {
        "abd" => file_with(alloc, rt, 10, b'd', &ABD_DIGEST),
        "abcN" => file_with(alloc, rt, 26, b'N', &MODULE_N_DIGEST),
        _ => file_with(alloc, rt, 26, b'M', &ABC_DIGEST),
    }
}

fn unit_of(alloc: Global, rt: &impl Abort, word: &str) -> UnitValue
    ensures { IsValidUnit result }
{
    decode(alloc, &file_of(alloc, rt, word)).expect(rt, "a unit")
}

fn abc(rt: &impl Abort) -> FileName {
    FileName::read(ABC_NAME).expect(rt, "a name")
}

fn abd(rt: &impl Abort) -> FileName {
    FileName::read(ABD_NAME).expect(rt, "a name")
}

/// The name of a unit, or of one that went away.
fn name_of(rt: &impl Abort, word: &str) -> FileName {
    match word {
        "abd" => abd(rt),
        "-abd" => abd(rt),
        _ => abc(rt),
    }
}

fn answered(answer: Result<Settled, Failed>) -> &'static str {
    match answer {
        Ok(Settled::Synced) => "synced",
        Ok(Settled::Unsynced) => "unsynced",
        Err(Failed) => "fault",
    }
}

/// What a stage of a unit and its publication answer.
fn publish<D: Dir>(alloc: Global, rt: &impl Abort, dir: &mut D, word: &str) -> &'static str
    requires { IfSome (D.state dir.old).moves (HoldsUnits sha_name) }
    ensures { IfSome (D.state dir.new).moves (HoldsUnits sha_name) }
{
    laws::changes_keep_units();
    let unit = unit_of(alloc, rt, word);
    stage_unit(alloc, dir, 0, &unit).expect(rt, "a stage");
    dir.reserve(alloc, 2).expect(rt, "room");
    answered(publish_unit(dir, 0, Sha.name(unit.output.bytes())))
}

fn remove<D: Dir>(alloc: Global, rt: &impl Abort, dir: &mut D, word: &str) -> &'static str
    requires { IfSome (D.state dir.old).moves (HoldsUnits sha_name) }
    ensures { IfSome (D.state dir.new).moves (HoldsUnits sha_name) }
{
    laws::changes_keep_units();
    dir.reserve(alloc, 2).expect(rt, "room");
    answered(remove_unit(dir, name_of(rt, word)))
}

fn stage<D: Dir>(alloc: Global, rt: &impl Abort, dir: &mut D) -> &'static str
    ensures { (D.state dir.new).moves ≡ (D.state dir.old).moves }
{
    let unit = unit_of(alloc, rt, "abc");
    match stage_unit(alloc, dir, 0, &unit) {
        Ok(()) => "done",
        Err(StageError::Fault) => "fault",
        Err(StageError::Memory) => "memory",
    }
}

fn list<D: Dir>(alloc: Global, dir: &mut D) -> &'static str
    ensures { (D.state dir.new).moves ≡ (D.state dir.old).moves }
{
    match dir.list(alloc, Area::Records) {
        Ok(_) => "done",
        Err(_) => "fault",
    }
}

/// Checks a unit that a scan found.
fn check_put(alloc: Global, rt: &impl Abort, put: &UnitPut, word: &str) {
    assert!(rt; put.name == name_of(rt, word));
    assert!(rt; *put.unit == unit_of(alloc, rt, word));
}

/// Checks that the batch has these units, and then these names gone, each of which begins with `-`.
fn check_batch(alloc: Global, rt: &impl Abort, batch: &Batch, want: &str) {
    if want.is_empty() {
        assert!(rt; batch.puts.as_slice().is_empty());
        assert!(rt; batch.gone.as_slice().is_empty());
        return;
    }
    let mut words = want.split(',');
    for put in batch.puts.as_slice() {
        check_put(alloc, rt, put, words.next().expect(rt, "no more units"));
    }
    for name in batch.gone.as_slice() {
        let word = words.next().expect(rt, "no more names");
        assert!(rt; word.starts_with('-'));
        assert!(rt; *name == name_of(rt, word));
    }
    assert!(rt; words.next().is_none());
}

fn error_of(rt: &impl Abort, word: &str) -> ScanError {
    let name = abc(rt);
    match word {
        "fault" => ScanError::Fault,
        "lost" => ScanError::Lost { name },
        "damaged" => ScanError::Damaged { name },
        _ => ScanError::Memory,
    }
}

/// A scan that gives this batch, or this error. The stamps that it gives are known then.
fn check_scan<D: Dir>(alloc: Global, rt: &impl Abort, dir: &mut D, known: &mut Stamps, want: &str)
    requires { IfSome (D.state dir.old).moves (HoldsUnits sha_name) }
    ensures { (D.state dir.new).moves ≡ (D.state dir.old).moves }
{
    match scan(alloc, dir, &Sha, known) {
        Ok(scanned) => {
            let Scanned { batch, stamps } = scanned;
            check_batch(alloc, rt, &batch, want);
            *known = stamps;
        }
        Err(error) => assert!(rt; error == error_of(rt, want)),
    }
}

/// Makes a call, and checks what it answers.
fn check_call<D: Dir>(alloc: Global, rt: &impl Abort, dir: &mut D, known: &mut Stamps, call: &str)
    requires { IfSome (D.state dir.old).moves (HoldsUnits sha_name) }
    ensures { IfSome (D.state dir.new).moves (HoldsUnits sha_name) }
{
    let (name, want) = call.split_once('=').expect(rt, "an answer");
    match name {
        "scan" => check_scan(alloc, rt, dir, known, want),
        "stage" => assert_eq!(rt; stage(alloc, rt, dir), want),
        "list" => assert_eq!(rt; list(alloc, dir), want),
        "-abc" => assert_eq!(rt; remove(alloc, rt, dir, name), want),
        "-abd" => assert_eq!(rt; remove(alloc, rt, dir, name), want),
        _ => assert_eq!(rt; publish(alloc, rt, dir, name), want, "{call}"),
    }
}

/// Makes the calls, each of which has what it is to answer behind it.
fn check_calls<D: Dir>(alloc: Global, rt: &impl Abort, dir: &mut D, known: &mut Stamps, calls: &str)
    requires { IfSome (D.state dir.old).moves (HoldsUnits sha_name) }
    ensures { IfSome (D.state dir.new).moves (HoldsUnits sha_name) }
{
    for call in calls.split(' ') {
        check_call(alloc, rt, dir, known, call);
    }
}

/// An empty directory whose calls of these numbers fail.
fn failing(alloc: Global, rt: &impl Abort, calls: &[u64]) -> MemoryDir
    ensures { HoldsUnits sha_name result.moves }
{
    laws::an_empty_directory_holds_units();
    let calls = Vec::from_slice(alloc, calls).expect(rt, "memory");
    MemoryDir::failing(alloc, Seq::of(calls))
}

/// Makes the calls over a directory in memory whose calls of these numbers fail.
fn check_run(alloc: Global, rt: &impl Abort, fails: &[u64], calls: &str) {
    let mut dir = failing(alloc, rt, fails);
    check_calls(alloc, rt, &mut dir, &mut Stamps::new(alloc), calls);
}

/// A stage is one call; a publication behind its stage and a removal are two.
#[test]
fn calls_have_their_numbers(rt: HostRuntime) {
    let alloc = rt.alloc();
    check_run(alloc, &rt, &[2], "stage=done list=fault");
    check_run(alloc, &rt, &[4], "abc=synced list=fault");
    check_run(alloc, &rt, &[3, 4], "abc=unsynced list=fault");
    check_run(alloc, &rt, &[2, 3], "abc=fault list=fault");
    check_run(alloc, &rt, &[3], "-abc=synced list=fault");
    check_run(alloc, &rt, &[2, 3], "-abc=unsynced list=fault");
    check_run(alloc, &rt, &[1, 2], "-abc=fault list=fault");
}

/// A scan makes one call, and one for each change.
#[test]
fn a_scan_finds_what_changed(rt: HostRuntime) {
    let alloc = rt.alloc();
    let counted =
        "abc=synced abd=synced scan=abd,abc list=fault abcN=synced scan=abcN list=fault scan= list=fault";
    check_run(alloc, &rt, &[10, 16, 18], counted);
    // A unit whose sync failed is found, once.
    check_run(alloc, &rt, &[3], "abc=unsynced scan=abc scan=");
    // A second publication gives a new stamp.
    let renewed = "abc=synced scan=abc abc=synced scan=abc abcN=synced scan=abcN";
    check_run(alloc, &rt, &[], renewed);
    // Units and names gone rise: the name of `abd` is the lower one.
    let gone = "abc=synced abd=synced scan=abd,abc -abc=synced -abd=synced scan=-abd,-abc";
    check_run(alloc, &rt, &[], gone);
}

#[test]
fn a_call_that_fails_changes_nothing(rt: HostRuntime) {
    let alloc = rt.alloc();
    check_run(alloc, &rt, &[2], "abc=fault scan=");
    check_run(alloc, &rt, &[4], "abc=synced -abc=fault scan=abc");
    // A fault of the stage, of the list and of the read.
    let faults = "stage=fault abc=synced scan=fault scan=fault";
    check_run(alloc, &rt, &[1, 5, 7], faults);
}

/// Each call once: `abd` isn't there.
const EACH: &str = "stage=done abc=synced scan=abc -abd=synced scan= -abc=synced scan=-abc";

fn untold(alloc: Global) -> UntoldDir {
    UntoldDir::new(MemoryDir::new(alloc), Reads::Whole)
}

fn steady(alloc: Global) -> SteadyDir
    ensures { HoldsUnits sha_name result.moves }
{
    laws::an_empty_directory_holds_units();
    SteadyDir::new(alloc)
}

#[test]
fn each_directory_answers_each_call(rt: HostRuntime) {
    let alloc = rt.alloc();
    check_run(alloc, &rt, &[], EACH);
    let mut dir = steady(alloc);
    check_calls(alloc, &rt, &mut dir, &mut Stamps::new(alloc), EACH);
    let mut dir = untold(alloc);
    check_calls(alloc, &rt, &mut dir, &mut Stamps::new(alloc), EACH);
}

/// Which file stands under the name of `abc`, `-` for none.
fn file_at<D: Dir>(alloc: Global, rt: &impl Abort, dir: &mut D) -> &'static str {
    let found = dir.read(alloc, Area::Units, abc(rt)).expect(rt, "a read");
    let Some(bytes) = found else {
        return "-";
    };
    if bytes.as_slice() == file_of(alloc, rt, "abc").as_slice() {
        return "abc";
    }
    if bytes.as_slice() == file_of(alloc, rt, "abcN").as_slice() {
        return "abcN";
    }
    "other bytes"
}

/// Checks which file a crash leaves under the name of `abc`.
fn check_left(alloc: Global, rt: &impl Abort, dir: &MemoryDir, pick: Pick, want: &str) {
    let mut left = dir.stopped(alloc, pick).expect(rt, "memory");
    assert_eq!(rt; file_at(alloc, rt, &mut left), want);
}

/// What crashes leave at the oldest pick, and at later ones.
fn check_images(alloc: Global, rt: &impl Abort, dir: &MemoryDir, oldest: &str, later: &str) {
    check_left(alloc, rt, dir, Pick::Oldest, oldest);
    check_left(alloc, rt, dir, Pick::Nth(1), later);
    check_left(alloc, rt, dir, Pick::Newest, later);
}

/// The third call and the eighth are the syncs that fail.
#[test]
fn a_crash_leaves_an_unsynced_change_or_not(rt: HostRuntime) {
    let alloc = rt.alloc();
    let mut dir = failing(alloc, &rt, &[3, 8]);
    let mut known = Stamps::new(alloc);
    check_calls(alloc, &rt, &mut dir, &mut known, "abc=unsynced");
    check_images(alloc, &rt, &dir, "-", "abc");
    check_calls(alloc, &rt, &mut dir, &mut known, "abcN=synced");
    check_images(alloc, &rt, &dir, "abcN", "abcN");
    check_calls(alloc, &rt, &mut dir, &mut known, "-abc=unsynced");
    check_images(alloc, &rt, &dir, "abcN", "-");
    check_calls(alloc, &rt, &mut dir, &mut known, "-abc=synced");
    check_images(alloc, &rt, &dir, "-", "-");
}

/// Reads `abc`, the second of two units, in this way.
fn check_wrong_read(alloc: Global, rt: &impl Abort, reads: Reads, want: &str) {
    let mut dir = untold(alloc);
    let mut known = Stamps::new(alloc);
    check_calls(
        alloc,
        rt,
        &mut dir,
        &mut known,
        "abd=synced scan=abd abc=synced",
    );
    dir.set_reads(reads);
    check_calls(alloc, rt, &mut dir, &mut known, want);
}

#[test]
fn a_file_that_reads_wrongly_is_lost_or_damaged(rt: HostRuntime) {
    let alloc = rt.alloc();
    check_wrong_read(alloc, &rt, Reads::Nothing, "scan=lost");
    check_wrong_read(alloc, &rt, Reads::ByteLess, "scan=damaged");
}

/// Puts the file of `abd` at the name of `abc`.
fn misplace<D: Dir>(alloc: Global, rt: &impl Abort, dir: &mut D) -> &'static str {
    let unit = unit_of(alloc, rt, "abd");
    stage_unit(alloc, dir, 0, &unit).expect(rt, "a stage");
    dir.reserve(alloc, 2).expect(rt, "room");
    answered(publish_unit(dir, 0, abc(rt)))
}

#[test]
fn a_unit_of_another_name_is_damaged(rt: HostRuntime) {
    let alloc = rt.alloc();
    let mut dir = untold(alloc);
    let mut known = Stamps::new(alloc);
    check_calls(alloc, &rt, &mut dir, &mut known, "abd=synced");
    assert_eq!(rt; misplace(alloc, &rt, &mut dir), "synced");
    check_calls(alloc, &rt, &mut dir, &mut known, "scan=damaged");
}

#[test]
fn errors_have_texts(rt: HostRuntime) {
    let name = FileName::read(b"ab").expect(&rt, "a name");
    let [fault, memory] = [StageError::Fault, StageError::Memory];
    let stages = format!(in rt.alloc(); "{fault}, {memory}").expect(&rt, "memory");
    assert_eq!(rt; stages.as_str(), "the directory failed, memory");
    let [fault, memory] = [ScanError::Fault, ScanError::Memory];
    let [lost, damaged] = [ScanError::Lost { name }, ScanError::Damaged { name }];
    let scans = format!(in rt.alloc(); "{fault}, {lost}, {damaged}, {memory}");
    assert_eq!(rt;
        scans.expect(&rt, "memory").as_str(),
        "the directory failed, no unit file \"ab\", which was listed, the file \"ab\" isn't that of a unit of this name, memory"
    );
}
