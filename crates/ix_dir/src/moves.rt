//! The moves of a directory.
ghost use Rattle.std.specs.Prelude.{◌≡◌};
ghost use Rattle.std.specs.Option.{option_copied};
ghost use Rattle.ix_dir.specs.ValuesByNumber.{bytes_put as put_bytes};

use crate::area::Area;
use ix_types::{FileName, Seq};

/// A change of a directory that took effect.
#[derive(Debug, Drop, PartialEq, Eq)]
pub enum Move {
    /// The bytes of a slot came to stand at the name, in number of what was there.
    Renamed {
        area: Area,
        name: FileName,
        bytes: Seq<u8>,
        stamp: u64,
    },
    /// The file of the name, which was there, went away.
    Removed {
        area: Area,
        name: FileName,
    },
    /// All that stood in the area came to stay there after a crash.
    Synced {
        area: Area,
    },
    /// A file was put there by a test, synced at once.
    Placed {
        area: Area,
        name: FileName,
        bytes: Seq<u8>,
        stamp: u64,
    },
}

/// The bytes that the move at a number put.
pub fn bytes_put(moves: &[Move], number: u64) -> Option<&[u8]>
    ensures { option_copied result ≡ put_bytes moves.now number }
{
    match moves.get(number as usize) {
        Some(Move::Renamed { bytes, .. }) => Some(bytes.as_slice()),
        Some(Move::Placed { bytes, .. }) => Some(bytes.as_slice()),
        _ => None,
    }
}
