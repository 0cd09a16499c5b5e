//! How a call may end, the exit status of each ending, and the line that tells of it.
ghost use Rattle.std.specs.Prelude.{◌≡◌, ◌≢◌, Bool, false, Some};
ghost use Rattle.ix_plain.specs.declared.ending.Ending.{Ending as Replayed};
ghost use Rattle.ix_plain.specs.declared.ending.Ending.TheVariants as replayed;
ghost use Rattle.ix_plain.specs.Ending as plain_words;
ghost use Rattle.ix_main.specs.Ending.{MayCheck, MayEnd, MayRun, is_open_fault, is_read_fault, is_refused, is_whole, is_write_fault, line_of, of_check, of_replay, status_of};

use ix_plain::MAX_INPUT;
use ix_plan::ScriptRefusal;
use std::fmt;

/// How a call ended.
#[derive(Debug, Drop, PartialEq, Eq)]
pub enum Ending {
    /// The output was written whole, and no event says that something failed.
    Done,
    /// The words are none that the call knows.
    BadWords,
    /// The script is refused.
    BadScript(ScriptRefusal),
    /// The output was written whole. An event says fault or unsynced, and none lost or damaged.
    DirFault,
    /// A read of the source failed.
    ReadFault,
    /// A write to the sink failed.
    WriteFault,
    /// Memory was wanting.
    Memory,
    /// The source held more bytes than a script has.
    TooLarge,
    /// The directory failed while the store was opened or checked.
    OpenFault,
    /// The output was written whole, and an event says lost or damaged.
    StoreDamaged,
}

impl Ending {
    /// The exit status: 0 to 9, as the variants stand.
    pub fn status(&self) -> u8
        ensures { result ≡ status_of self.now }
    {
        match self {
            Ending::Done => 0,
            Ending::BadWords => 1,
            Ending::BadScript(_) => 2,
            Ending::DirFault => 3,
            Ending::ReadFault => 4,
            Ending::WriteFault => 5,
            Ending::Memory => 6,
            Ending::TooLarge => 7,
            Ending::OpenFault => 8,
            Ending::StoreDamaged => 9,
        }
    }
}

impl fmt::Display for Ending {
    ghost output = { λ ending. Some (line_of ending) };

    fn fmt<W: fmt::Write>(&self, f: &mut fmt::Formatter<W>) -> fmt::Result {
        match self {
            Ending::Done => write!(f, "done"),
            Ending::BadWords => write!(f, "usage: ix FOLDER replay, live, check or gen N"),
            Ending::BadScript(refusal) => write!(f, "bad script: {refusal}"),
            Ending::DirFault => write!(f, "directory fault during the run"),
            Ending::ReadFault => write!(f, "input could not be read"),
            Ending::WriteFault => write!(f, "output could not be written"),
            Ending::Memory => write!(f, "out of memory"),
            Ending::TooLarge => write!(f, "input is larger than {MAX_INPUT} bytes"),
            Ending::OpenFault => write!(f, "the store could not be opened"),
            Ending::StoreDamaged => {
                write!(f, "a file of the store was lost or damaged during the run")
            }
        }
    }
}

/// The ending of a replay, as one of a call.
pub(crate) fn of_replay(ending: ix_plain::Ending) -> Ending
    ensures same { result ≡ of_replay ending }
    ensures whole { is_whole result ≡ plain_words.is_whole ending }
    ensures refused { is_refused result ≡ plain_words.is_refused ending }
    ensures write_fault { is_write_fault result ≡ plain_words.is_write_fault ending }
    ensures read_fault { is_read_fault result ≡ false }
    ensures may { (decided : Replayed) → plain_words.MayEnd decided ending → MayEnd decided result }
    ensures ran { (ran : Bool) → plain_words.MayRun ending ran → MayRun result ran }
    ensures opened { result ≡ Ending.OpenFault → ending ≡ replayed.OpenFault }
    ensures memory { result ≡ Ending.Memory → ending ≡ replayed.Memory }
    ensures damaged { result ≡ Ending.StoreDamaged → ending ≡ replayed.StoreDamaged }
    ensures known { result ≢ Ending.BadWords }
{
    match ending {
        ix_plain::Ending::Done => Ending::Done,
        ix_plain::Ending::BadScript(refusal) => Ending::BadScript(refusal),
        ix_plain::Ending::DirFault => Ending::DirFault,
        ix_plain::Ending::WriteFault => Ending::WriteFault,
        ix_plain::Ending::Memory => Ending::Memory,
        ix_plain::Ending::TooLarge => Ending::TooLarge,
        ix_plain::Ending::OpenFault => Ending::OpenFault,
        ix_plain::Ending::StoreDamaged => Ending::StoreDamaged,
    }
}

/// The ending of a check, as one of a call.
pub(crate) fn of_check(ending: ix_check::Ending) -> Ending
    ensures same { result ≡ of_check ending }
    ensures may { MayCheck result }
{
    match ending {
        ix_check::Ending::Done => Ending::Done,
        ix_check::Ending::WriteFault => Ending::WriteFault,
        ix_check::Ending::Memory => Ending::Memory,
        ix_check::Ending::OpenFault => Ending::OpenFault,
    }
}
