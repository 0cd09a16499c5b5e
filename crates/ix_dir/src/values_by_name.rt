//! The values that a crash may leave, for all names of an area, noted in one walk over the moves.
ghost use Rattle.std.specs.Prelude.{◌≡◌, ◌^◌, ◌<◌, ℕ, [], ◌∷◌, ◌++◌, List, length, map, false, is_some, IfNone, IfOk, IfSome, OnOk, None, Some};
ghost use Rattle.std.specs.List.{list_any};
ghost use Rattle.ix_dir.specs.Crash.{names_since};
ghost use Rattle.ix_dir.specs.Images.{values_of, last_alone};
ghost use Rattle.ix_dir.specs.Moves.{same_name};
ghost use Rattle.ix_dir.specs.NotedInOneWalk.{held_by, held, is_there, noted_of, IsPending, NotesMove, SetsNumbers};
ghost use Rattle.ix_dir.specs.ValuesByNumber.{value_at};

use crate::area::Area;
use crate::moves::{Move, bytes_put};
use indexmap::IndexMap;
use ix_types::{FileName, Memory};
use std::alloc::{AllocError, Global};
use std::marker::Model;

/// The values of a name, each as the number of the move that put it, and the number of the last move on the name.
#[derive(Drop)]
struct Noted {
    numbers: Vec<Option<u64>>,
    last: u64,
}

impl Model for Noted {
    ghost use Rattle.std.specs.Prelude.{◌<◌, length};
    ghost use Rattle.ix_dir.specs.NotedOfName.{NotedOfName};

    ghost Value = { NotedOfName };

    ghost view = { λ n. record { numbers = n.numbers.items; last = n.last } };

    ghost invariant = { λ n. 0 < length n.numbers.items };
}

impl Noted {
    fn new(numbers: Vec<Option<u64>>, last: u64) -> Noted
        requires { 0 < length numbers.items }
        ensures { result ≡ record { numbers = numbers.items; last = last } }
    {
        Noted { numbers, last }
    }

    /// The numbers that count, where the first move after the last sync has this number.
    fn into_numbers(self, synced: u64) -> Result<Vec<Option<u64>>, Memory>
        ensures { IfOk result (λ numbers. numbers.items ≡ held_by synced (Some self)) }
    {
        let Noted { mut numbers, last } = self;
        if last < synced {
            keep_last(&mut numbers)?;
        }
        Ok(numbers)
    }

    /// The same, where they stand.
    fn numbers(&self, synced: u64) -> &[Option<u64>]
        ensures held { result.now ≡ held_by synced (Some self.now) }
        ensures any { 0 < length result.now }
    {
        let numbers = self.numbers.as_slice();
        if synced <= self.last {
            return numbers;
        }
        &numbers[numbers.len().saturating_sub(1)..]
    }
}

/// The values of each name of an area since its last sync.
#[derive(Drop)]
pub struct ValuesByName {
    noted: IndexMap<FileName, Noted>,
    /// The number of the first move after the last sync, 0 where there was no sync.
    synced: u64,
}

impl ValuesByName {
    /// What is pending in an area after the moves, with the names in rising order.
    pub fn of(alloc: Global, moves: &[Move], area: Area) -> Result<ValuesByName, Memory>
        ensures { IfOk result (IsPending moves.now area) }
    {
        let mut pending = ValuesByName::noted_in(alloc, moves, area)?;
        pending.noted.sort_keys()?;
        Ok(pending)
    }

    /// What one walk over the moves notes.
    fn noted_in(alloc: Global, moves: &[Move], area: Area) -> Result<ValuesByName, Memory>
        ensures { IfOk result (λ p. (q : List ℕ) → map (value_at moves.now) (held p q) ≡ values_of moves.now area q) }
    {
        let mut pending = ValuesByName {
            noted: IndexMap::new(alloc),
            synced: 0,
        };
        for (number, one) in moves.iter().enumerate() {
            pending.note(alloc, one, number as u64, area)?;
        }
        Ok(pending)
    }

    /// Notes the move at a number.
    fn note(&mut self, alloc: Global, one: &Move, number: u64, area: Area) -> Result<(), Memory>
        requires { number < 2 ^ 63 }
        ensures { OnOk result (NotesMove area number one.now self.old self.new) }
    {
        match one {
            Move::Renamed { area: a, name, .. } => {
                if area == *a {
                    self.add(alloc, name, Some(number), number)?;
                }
            }
            Move::Removed { area: a, name } => {
                if area == *a {
                    self.add(alloc, name, None, number)?;
                }
            }
            Move::Synced { area: a } => {
                if area == *a {
                    self.synced = number + 1;
                }
            }
            Move::Placed { area: a, name, .. } => {
                if area == *a {
                    self.set(*name, vec![in alloc; Some(number)]?, number)?;
                }
            }
        }
        Ok(())
    }

    /// Adds a value of a name.
    fn add(
        &mut self,
        alloc: Global,
        name: &FileName,
        value: Option<u64>,
        number: u64,
    ) -> Result<(), Memory>
        ensures { OnOk result (SetsNumbers self.old self.new name.now (held self.old name.now ++ value ∷ []) number) }
    {
        let mut numbers = self.take(alloc, name)?;
        numbers.push(value)?;
        self.set(*name, numbers, number)
    }

    /// Takes the values of a name out.
    fn take(&mut self, alloc: Global, name: &FileName) -> Result<Vec<Option<u64>>, Memory>
        ensures numbers { IfOk result (λ numbers. numbers.items ≡ held self.old name.now) }
        ensures others { (q : List ℕ) → same_name name.now q ≡ false → noted_of self.new q ≡ noted_of self.old q }
        ensures synced { self.new.synced ≡ self.old.synced }
    {
        match self.noted.swap_remove(name) {
            Some(noted) => noted.into_numbers(self.synced),
            None => Ok(vec![in alloc; None]?),
        }
    }

    /// Gives a name these values.
    fn set(&mut self, name: FileName, numbers: Vec<Option<u64>>, number: u64) -> Result<(), Memory>
        requires { 0 < length numbers.items }
        ensures { OnOk result (SetsNumbers self.old self.new name numbers.items number) }
    {
        self.noted.insert(name, Noted::new(numbers, number))?;
        Ok(())
    }

    /// The values of a name, None where no move was on it.
    pub fn values(&self, name: &FileName) -> Option<&[Option<u64>]>
        ensures some { IfSome result (λ numbers. numbers.now ≡ held self.now name.now) }
        ensures any { IfSome result (λ numbers. 0 < length numbers.now) }
        ensures none { IfNone result (held self.now name.now ≡ None ∷ []) }
    {
        let noted = self.noted.get(name)?;
        Some(noted.numbers(self.synced))
    }

    /// The names that had a file since the last sync, in rising order.
    pub fn names(&self, alloc: Global, moves: &[Move]) -> Result<Vec<FileName>, AllocError>
        ensures { IfOk result (λ names. (area : _) → IsPending moves.now area self.now → names.items ≡ names_since moves.now area) }
    {
        let mut names = Vec::new(alloc);
        for name in self.noted.keys().as_slice() {
            if self.was_there(moves, name) {
                names.push(*name)?;
            }
        }
        Ok(names)
    }

    /// Whether a name had a file since the last sync.
    fn was_there(&self, moves: &[Move], name: &FileName) -> bool
        ensures { result ≡ is_there moves.now self.now name.now }
    {
        match self.values(name) {
            Some(values) => any_there(moves, values),
            None => false,
        }
    }
}

/// Whether one of the numbers stands for bytes.
fn any_there(moves: &[Move], values: &[Option<u64>]) -> bool
    ensures { result ≡ list_any (λ number. is_some (value_at moves.now number)) values.now }
{
    values.iter().any(|number| match number {
        Some(number) => bytes_put(moves, *number).is_some(),
        None => false,
    })
}

/// Keeps the last value alone.
fn keep_last(numbers: &mut Vec<Option<u64>>) -> Result<(), AllocError>
    ensures { OnOk result (numbers.new.items ≡ last_alone numbers.old.items) }
{
    if let Some(last) = numbers.pop() {
        numbers.clear();
        numbers.push(last)?;
    }
    Ok(())
}
