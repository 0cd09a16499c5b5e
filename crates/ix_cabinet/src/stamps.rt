//! The stamps of unit files.
ghost use Rattle.std.specs.Prelude.{◌≡◌, [], ◌∷◌, ◌++◌, filter, not, None, IfOk, OnOk};
ghost use Rattle.std.specs.FinMap.{empty, get, keys, contains_key, from_sorted};
ghost use Rattle.std.specs.HashMap.{get as entry_of, keys as names_of};
ghost use Rattle.ix_dir.specs.Files.{IsRising};
ghost use Rattle.ix_dir.specs.Moves.{same_name};
ghost use Rattle.ix_dir.specs.Files.{rows_of};
ghost use Rattle.ix_cabinet.specs.Scan.{is_known};
ghost use Rattle.std.specs.List.Sorted.{IsStrictlySortedBy};
ghost use Rattle.ix_types.specs.Row.{text_cmp};

use indexmap::IndexMap;
use ix_dir::Listed;
use ix_types::FileName;
use std::alloc::{AllocError, Global};
use std::marker::Model;

/// Stamps by the names of unit files.
#[derive(Debug, Drop)]
pub struct Stamps {
    /// In rising order of name.
    stamps: IndexMap<FileName, u64>,
}

impl Model for Stamps {
    ghost use Rattle.std.specs.Prelude.{IsTrue};
    ghost use Rattle.std.specs.FinMap.{from_sorted, is_sorted};
    ghost use Rattle.ix_types.specs.Row.{text_cmp};
    ghost use Rattle.ix_cabinet.specs.Scan.{StampMap, stamp_code};

    ghost Value = { StampMap };

    ghost coded = { stamp_code };

    ghost view = { λ s. from_sorted s.stamps.entries };

    ghost invariant = { λ s. IsTrue (is_sorted text_cmp s.stamps.entries) };
}

impl Stamps {
    /// No stamps. Takes no memory.
    pub fn new(alloc: Global) -> Stamps
        ensures { result ≡ empty }
    {
        Stamps {
            stamps: IndexMap::new(alloc),
        }
    }

    /// The stamps of a list.
    pub(crate) fn of(alloc: Global, listed: &[Listed]) -> Result<Stamps, AllocError>
        requires { IsRising listed.now }
        ensures { IfOk result (λ stamps. stamps ≡ from_sorted (rows_of listed.now)) }
    {
        let stamps = index_of(alloc, listed)?;
        Ok(Stamps { stamps })
    }

    /// Whether the stamp of a listed file is the one that these stamps have for its name.
    pub(crate) fn knows(&self, one: &Listed) -> bool
        ensures { result ≡ is_known self.now one.now }
    {
        self.get(&one.name) == Some(one.stamp)
    }

    /// The stamp of a name, None where there is none.
    fn get(&self, name: &FileName) -> Option<u64>
        ensures { result ≡ get self.now name.now }
    {
        self.stamps.get(name).copied()
    }

    /// The names that these stamps have and `others` lack, in rising order.
    pub(crate) fn lacking_in(
        &self,
        alloc: Global,
        others: &Stamps,
    ) -> Result<Vec<FileName>, AllocError>
        ensures names { IfOk result (λ names. names.items ≡ filter (λ name. not (contains_key others.now name)) (keys self.now)) }
        ensures rising { IfOk result (λ names. IsStrictlySortedBy text_cmp names.items) }
    {
        lacking(alloc, &self.stamps, others)
    }
}

/// The names of an index that the stamps lack, in its order.
fn lacking(
    alloc: Global,
    index: &IndexMap<FileName, u64>,
    stamps: &Stamps,
) -> Result<Vec<FileName>, AllocError>
    ensures { IfOk result (λ names. names.items ≡ filter (λ name. not (contains_key stamps.now name)) (names_of index.now)) }
{
    index
        .keys()
        .filter(|name| stamps.get(name).is_none())
        .copied()
        .collect(alloc)
}

/// The stamps of a list, in its order.
fn index_of(alloc: Global, listed: &[Listed]) -> Result<IndexMap<FileName, u64>, AllocError>
    requires { IsRising listed.now }
    ensures { IfOk result (λ index. index.entries ≡ rows_of listed.now) }
{
    let mut index = IndexMap::new(alloc);
    for one in listed {
        add(&mut index, one)?;
    }
    Ok(index)
}

/// Adds a stamp of a name that has none.
fn add(index: &mut IndexMap<FileName, u64>, one: &Listed) -> Result<(), AllocError>
    requires { entry_of same_name index.old one.now.name ≡ None }
    ensures { OnOk result (index.new.entries ≡ index.old.entries ++ rows_of (one.now ∷ [])) }
{
    index.insert(one.name, one.stamp)?;
    Ok(())
}
