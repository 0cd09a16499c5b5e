//! What can stand in an index.
ghost use Rattle.std.specs.Prelude.{◌≡◌, IfOk};
ghost use Rattle.std.specs.FinMap.{IsAntisymmetric, nat_cmp-IsAntisymmetric, slice_cmp-IsAntisymmetric};

use ix_pages::Key;
use ix_types::{FileName, Memory, Text};

/// A key or a value of an index: only equal ones compare as equal, and a second one can be made.
pub trait Item: Key + Drop {
    /// The same once more.
    fn copied(&self) -> Result<Self, Memory>
        ensures { IfOk result (λ copy. copy ≡ self.now) };

    ghost exact: { IsAntisymmetric Self.cmp };
}

impl Item for u64 {
    ghost exact = { nat_cmp-IsAntisymmetric };

    fn copied(&self) -> Result<u64, Memory> {
        Ok(*self)
    }
}

impl Item for FileName {
    ghost exact = { slice_cmp-IsAntisymmetric nat_cmp-IsAntisymmetric };

    fn copied(&self) -> Result<FileName, Memory> {
        Ok(*self)
    }
}

impl Item for Text {
    ghost exact = { slice_cmp-IsAntisymmetric nat_cmp-IsAntisymmetric };

    fn copied(&self) -> Result<Text, Memory> {
        let copy = self.clone()?;
        Ok(copy)
    }
}
