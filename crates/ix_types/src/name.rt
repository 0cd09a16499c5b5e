//! Names of files, and how bytes are named.
ghost use Rattle.std.specs.Prelude.{◌≡◌, ◌↔◌, IsSome, IfSome, List, ℕ};
ghost use Rattle.std.specs.Ordering.{nat_cmp};
ghost use Rattle.std.specs.Cmp.Lexicographic.{pointwise, slice_cmp, nat_list_eq_equiv, nat_list_cmp_total, texts_ties, texts_po, bytes_decides};
ghost use Rattle.std.specs.Cmp.{partial_equiv_from_equiv};
ghost use Rattle.std.specs.Prelude.{Some, nat_eq, refl, ◌≤◌, length, IsTrue};
ghost use Rattle.ix_types.specs.Name.{is_lower_hex, cells_of, IsFileName};
ghost use Rattle.std.specs.List.{list_all};
ghost use Rattle.hex.specs.Hex.{encode_lower};
ghost use Rattle.std.specs.Hash as fed;
ghost use Rattle.std.specs.Hash.{same_Alike};

use sha2::{Digest, Sha256};
use std::alloc::AllocError;
use std::cmp::Ordering;
use std::fmt;
use std::hash::{Hash, Hasher};
use std::marker::Model;

/// The most digits that a name has.
const MAX_LEN: usize = 64;

/// A file's name: 1 to 64 lower-case hex digits, ordered as bytes.
pub struct FileName {
    cells: [u8; MAX_LEN],
    len: usize,
}

impl Model for FileName {
    ghost use Rattle.std.specs.Prelude.{List, ℕ, take};

    ghost Value = { List ℕ };

    ghost use Rattle.ix_types.specs.Name.{IsNamed};
    ghost use Rattle.ix_types.specs.NameFields.{fields_of, fields_of-take};

    ghost view = { λ n. take n.len n.cells };

    ghost invariant = { λ n. IsNamed n.cells n.len };

    ghost inverse = { fields_of };

    ghost inverse_ok = { fields_of-take };
}

impl FileName {
    /// The name that the bytes are; None where they aren't one.
    pub fn read(bytes: &[u8]) -> Option<FileName>
        ensures known { IsSome result ↔ IsFileName bytes.now }
        ensures value { IfSome result (λ n. n ≡ bytes.now) }
    {
        if is_name(bytes) {
            Some(FileName {
                cells: padded(bytes),
                len: bytes.len(),
            })
        } else {
            None
        }
    }

    /// The digits.
    pub fn bytes(&self) -> &[u8]
        ensures value { result.now ≡ self.now }
        ensures name { IsFileName self.now }
    {
        &self.cells[..self.len]
    }
}

/// Whether the bytes are 1 to 64 lower-case hex digits.
fn is_name(bytes: &[u8]) -> bool
    ensures { IsTrue result ↔ IsFileName bytes.now }
{
    !bytes.is_empty() && bytes.len() <= MAX_LEN && all_hex(bytes)
}

fn all_hex(bytes: &[u8]) -> bool
    ensures { result ≡ list_all is_lower_hex bytes.now }
{
    bytes.iter().all(|c| is_hex(*c))
}

/// The digits, and zeros behind them.
fn padded(bytes: &[u8]) -> [u8; MAX_LEN]
    requires { length bytes.now ≤ 64 }
    ensures { result ≡ cells_of bytes.now }
{
    let mut cells = [0u8; MAX_LEN];
    let (front, _) = cells.split_at_mut(bytes.len());
    front.copy_from_slice(bytes);
    cells
}

fn is_hex(c: u8) -> bool
    ensures { result ≡ is_lower_hex c }
{
    matches!(c, b'0'..=b'9' | b'a'..=b'f')
}

/// The digits in quotes.
impl fmt::Debug for FileName {
    fn fmt<W: fmt::Write>(&self, f: &mut fmt::Formatter<W>) -> fmt::Result {
        match str::from_utf8(self.bytes()) {
            Ok(text) => write!(f, "{text:?}"),
            Err(_) => Err(fmt::Error),
        }
    }
}

impl Clone for FileName {
    ghost is_clone = { λ name copy. copy ≡ name };

    fn clone(&self) -> Result<FileName, AllocError> {
        Ok(*self)
    }
}

impl Copy for FileName {}

impl PartialEq for FileName {
    ghost eq = { pointwise nat_eq };

    ghost laws = { partial_equiv_from_equiv nat_list_eq_equiv };

    fn eq(&self, other: &FileName) -> bool {
        self.bytes() == other.bytes()
    }
}

impl Eq for FileName {
    ghost laws = { nat_list_eq_equiv };
}

impl PartialOrd for FileName {
    ghost partial_cmp = { λ x y. Some (slice_cmp nat_cmp x y) };

    ghost laws = { texts_po };

    fn partial_cmp(&self, other: &FileName) -> Option<Ordering> {
        Some(self.cmp(other))
    }
}

impl Ord for FileName {
    ghost cmp = { slice_cmp nat_cmp };

    ghost total = { nat_list_cmp_total };

    ghost matches_partial_cmp = { λ x y. refl };

    ghost matches_eq = { texts_ties };

    fn cmp(&self, other: &FileName) -> Ordering {
        self.bytes().cmp(other.bytes())
    }
}

impl Hash for FileName {
    ghost hash_input = { fed.slice fed.u8 };

    ghost respects_eq = { (same_Alike (fed.slice fed.u8) bytes_decides).fed };

    fn hash<H: Hasher>(&self, state: &mut H) {
        Hash::hash(&self.bytes(), state);
    }
}

/// A way to name bytes. A name is a function of the bytes.
pub trait Naming {
    /// The name of some bytes.
    ghost name_of: { List ℕ → List ℕ };

    /// The name of the bytes. Takes no memory.
    fn name(&self, bytes: &[u8]) -> FileName
        ensures { result ≡ name_of bytes.now };
}

/// Names bytes by the 64 hex digits of their SHA-256.
#[derive(Clone, Copy, Debug)]
pub struct Sha;

impl Naming for Sha {
    ghost use Rattle.ix_types.specs.Name.{sha_name};

    ghost name_of = { sha_name };

    fn name(&self, bytes: &[u8]) -> FileName {
        name_in_hex(&Sha256::digest(bytes))
    }
}

/// The name that is a digest's hex text.
fn name_in_hex(digest: &[u8]) -> FileName
    requires { length digest.now ≡ 32 }
    ensures { result ≡ encode_lower digest.now }
{
    let mut digits = [0u8; MAX_LEN];
    match hex::encode_to_slice(digest, &mut digits) {
        Ok(()) => match FileName::read(&digits) {
            Some(name) => name,
            None => unreachable!(),
        },
        Err(_) => unreachable!(),
    }
}
