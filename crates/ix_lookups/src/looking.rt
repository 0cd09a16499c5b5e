//! The ten look-ups, whichever way they are kept.
ghost use Rattle.std.specs.Prelude.{◌≡◌};
ghost use Rattle.std.specs.Option.{option_copied, option_map};
ghost use Rattle.std.specs.Map.Iter.{deref_pair};
ghost use Rattle.ix_lookups.specs.Found.{name_at, unit_at, unit};

use ix_types::{FileName, Text};
use ix_unit::UnitValue;

/// Look-ups over a map of units. None takes memory, and each slice rises and has nothing twice where the tables are those of some units.
pub trait Lookups {
    ghost use Rattle.ix_lookups.specs.Found.{Found};

    /// What each look-up finds.
    ghost found: { Self → Found };

    /// The records that hold a symbol of the USR.
    fn providers(&self, usr: &Text) -> &[FileName]
        ensures { result.now ≡ (found self.now).providers usr.now };

    /// The records with a relation to the USR.
    fn related(&self, usr: &Text) -> &[FileName]
        ensures { result.now ≡ (found self.now).related usr.now };

    /// The USRs that symbols of the name have.
    fn named(&self, name: &Text) -> &[Text]
        ensures { result.now ≡ (found self.now).named name.now };

    /// The USRs that symbols of the code generation name have.
    fn coded(&self, codegen: &Text) -> &[Text]
        ensures { result.now ≡ (found self.now).coded codegen.now };

    /// The name of symbols at a place; None past the last.
    fn name_at(&self, place: u64) -> Option<&Text>
        ensures { option_copied result ≡ name_at place (found self.now) };

    /// The records that are listed under the path.
    fn in_path(&self, path: &Text) -> &[FileName]
        ensures { result.now ≡ (found self.now).in_path path.now };

    /// The paths under which the record is listed.
    fn paths(&self, name: &FileName) -> &[Text]
        ensures { result.now ≡ (found self.now).paths name.now };

    /// The units that list the path, as a record's or a file's.
    fn listing(&self, path: &Text) -> &[FileName]
        ensures { result.now ≡ (found self.now).listing path.now };

    /// The unit at a place, in the order of names, with its name; None past the last.
    fn unit_at(&self, place: u64) -> Option<(&FileName, &UnitValue)>
        ensures { option_map deref_pair result ≡ unit_at place (found self.now) };

    /// The unit of a name; None where no unit has it.
    fn unit(&self, name: &FileName) -> Option<&UnitValue>
        ensures { option_copied result ≡ unit name.now (found self.now) };
}
