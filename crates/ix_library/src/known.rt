//! What is known of the unit files.
ghost use Rattle.std.specs.Prelude.{◌≡◌, None};
ghost use Rattle.std.specs.FinMap.{empty};

use ix_cabinet::Stamps;
use std::alloc::Global;

/// The stamps of unit files that are known: those at the mark of the current version, and those at the mark of the open import, where one is open.
#[derive(Debug, Drop)]
pub struct KnownStamps {
    pub(crate) current: Stamps,
    pub(crate) import: Option<Stamps>,
}

impl KnownStamps {
    /// None are known, and no import is open. Takes no memory.
    pub(crate) fn none(alloc: Global) -> KnownStamps
        ensures current { result.current ≡ empty }
        ensures import { result.import ≡ None }
    {
        KnownStamps {
            current: Stamps::new(alloc),
            import: None,
        }
    }
}
