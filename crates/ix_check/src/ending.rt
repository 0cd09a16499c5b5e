//! How a check may end, and the exit status of each ending.
ghost use Rattle.std.specs.Prelude.{◌≡◌};
ghost use Rattle.ix_check.specs.Ending.{status_of};

/// How a check ended.
#[derive(Clone, Copy, Debug, Drop, PartialEq, Eq)]
pub enum Ending {
    /// The text was written whole.
    Done,
    /// The sink failed.
    WriteFault,
    /// Memory was wanting.
    Memory,
    /// The directory failed.
    OpenFault,
}

impl Ending {
    /// The exit status: 0, 5, 6 and 8, as the variants stand.
    pub fn status(self) -> u8
        ensures { result ≡ status_of self }
    {
        match self {
            Ending::Done => 0,
            Ending::WriteFault => 5,
            Ending::Memory => 6,
            Ending::OpenFault => 8,
        }
    }
}
