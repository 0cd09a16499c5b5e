//! Why a script is refused, and where.
ghost use Rattle.std.specs.Prelude.{◌≡◌, Some};
ghost use Rattle.std.specs.Fmt.{DisplaysOnOk};
ghost use Rattle.ix_plan.specs.declared.refusal.ScriptError.TheVariants.{Memory};
ghost use Rattle.ix_plan.specs.Texts.{word_of_list, text_at, refusal_text, error_text};

use ix_types::Seq;
use std::alloc::{AllocError, AllocFailed};
use std::error::Error;
use std::fmt;

/// Where a value stands, as bytes: a slash and a field's name, or a slash and an item's number, for each step from the root.
pub type Place = Seq<u8>;

/// A list that has a limit.
#[derive(Clone, Copy, Debug, Drop, PartialEq, Eq)]
pub enum What {
    Lanes,
    Steps,
    Order,
    Units,
    Records,
    Files,
    Includes,
    Symbols,
    Occurrences,
    Relations,
    Words,
}

/// Why a script is refused: the first fault in reading order.
#[derive(Debug, Drop, PartialEq, Eq)]
pub enum ScriptRefusal {
    /// The bytes are no JSON text in UTF-8.
    NotJson,
    /// An object has a field that it may not have, or lacks the field of the path.
    BadField { path: Place },
    /// A value is of another sort than it must be, or isn't allowed.
    BadValue { path: Place },
    /// A list is longer than its limit.
    TooMany { what: What },
    /// A second lane polls.
    TwoPollers { lane: u32 },
}

/// Why no script was read.
#[derive(Debug, Drop, PartialEq, Eq)]
pub enum ScriptError {
    /// Memory was wanting.
    Memory,
    /// The script is refused.
    Refused(ScriptRefusal),
}

impl From<AllocError> for ScriptError {
    ghost from_gives = { λ _ error. error ≡ Memory };

    fn from(_wanting: AllocError) -> ScriptError {
        ScriptError::Memory
    }
}

impl<T: Drop> From<AllocFailed<T>> for ScriptError {
    ghost from_gives = { λ _ error. error ≡ Memory };

    fn from(_wanting: AllocFailed<T>) -> ScriptError {
        ScriptError::Memory
    }
}

impl What {
    /// The word of the list.
    pub fn word(self) -> &'static str
        ensures { result.now ≡ word_of_list self }
    {
        match self {
            What::Lanes => "lanes",
            What::Steps => "steps",
            What::Order => "order",
            What::Units => "units",
            What::Records => "records",
            What::Files => "files",
            What::Includes => "includes",
            What::Symbols => "symbols",
            What::Occurrences => "occurrences",
            What::Relations => "relations",
            What::Words => "words",
        }
    }
}

impl fmt::Display for ScriptRefusal {
    ghost output = { λ refusal. Some (refusal_text refusal) };

    fn fmt<W: fmt::Write>(&self, f: &mut fmt::Formatter<W>) -> fmt::Result {
        match self {
            ScriptRefusal::NotJson => write!(f, "not JSON"),
            ScriptRefusal::BadField { path } => write_at(f, "field", path.as_slice()),
            ScriptRefusal::BadValue { path } => write_at(f, "value", path.as_slice()),
            ScriptRefusal::TooMany { what } => write!(f, "too many {}", what.word()),
            ScriptRefusal::TwoPollers { lane } => write!(f, "second polling lane {lane}"),
        }
    }
}

/// What is wrong, and where.
fn write_at<W: fmt::Write>(f: &mut fmt::Formatter<W>, sort: &str, path: &[u8]) -> fmt::Result
    ensures { DisplaysOnOk W.write_str_gives f.old result (Some (text_at sort.now path.now)) f.new }
{
    match str::from_utf8(path) {
        Ok(text) => write!(f, "{sort} at \"{text}\""),
        Err(_) => write!(f, "{sort}"),
    }
}

impl fmt::Display for ScriptError {
    ghost output = { λ error. Some (error_text error) };

    fn fmt<W: fmt::Write>(&self, f: &mut fmt::Formatter<W>) -> fmt::Result {
        match self {
            ScriptError::Memory => write!(f, "memory"),
            ScriptError::Refused(refusal) => write!(f, "{refusal}"),
        }
    }
}

impl Error for ScriptRefusal {}

impl Error for ScriptError {}
