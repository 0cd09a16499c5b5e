//! Keys, and numbers that lead in their order.
ghost use Rattle.std.specs.Prelude.{◌≡◌, ◌≤◌, ℕ, List, true, get_or};
ghost use Rattle.std.specs.Ordering.{is_le};
ghost use Rattle.ix_pages.specs.Heads.{leading, leading_from};

use ix_types::{FileName, Text};
use std::cmp::Ordering;

/// A key of a map. A fork keeps a number of each key beside it, and by these numbers most keys are told apart unread.
pub trait Key: Ord {
    /// The number of a key, by a base and a skip.
    ghost head_of: { Self → Self → ℕ → ℕ };

    /// A number of a key: of two keys the one that isn't greater hasn't the greater number, whatever the base and the skip are. The base is a key like
    /// those that are told apart, and the skip is how much they have in common.
    fn head(&self, base: &Self, skip: usize) -> u64
        ensures { result ≡ head_of self.now base.now skip };

    /// How much two keys have in common. Any number will do: it says only how well heads tell keys apart.
    fn shared(&self, other: &Self) -> usize;

    ghost leads: { (base : Self) (skip : ℕ) (key other : Self) → is_le (Self.cmp key other) ≡ true → head_of key base skip ≤ head_of other base skip };
}

/// A number is its own head.
impl Key for u64 {
    ghost use Rattle.ix_pages.specs.Leads.{number_leads};

    ghost head_of = { λ key base skip. key };

    ghost leads = { λ base skip key other less. number_leads key other less };

    fn head(&self, _base: &u64, _skip: usize) -> u64 {
        *self
    }

    fn shared(&self, _other: &u64) -> usize {
        0
    }
}

/// The bytes from the skip on, eight at most, as a number whose first byte leads. It is 0 or the greatest one where the bytes in front
/// are less or greater than those of the base.
fn head_of(bytes: &[u8], base: &[u8], skip: usize) -> u64
    ensures { result ≡ leading_from bytes.now base.now skip }
{
    let (front, rest) = bytes.split_at(skip.min(bytes.len()));
    let (wanted, _) = base.split_at(skip.min(base.len()));
    match front.cmp(wanted) {
        Ordering::Less => 0,
        Ordering::Equal => leading(rest),
        Ordering::Greater => u64::MAX,
    }
}

/// The byte of a number, 0 where there is none.
fn byte_at(bytes: &[u8], place: usize) -> u8
    ensures { result ≡ get_or bytes.now place 0 }
{
    match bytes.get(place) {
        Some(byte) => *byte,
        None => 0,
    }
}

/// The same where some of the eight bytes may lack.
#[tactic(auto, using(crate::proofs::EightBytes::from_eight))]
fn leading_few(bytes: &[u8]) -> u64
    ensures { result ≡ leading 8 bytes.now }
{
    u64::from_be_bytes([
        byte_at(bytes, 0),
        byte_at(bytes, 1),
        byte_at(bytes, 2),
        byte_at(bytes, 3),
        byte_at(bytes, 4),
        byte_at(bytes, 5),
        byte_at(bytes, 6),
        byte_at(bytes, 7),
    ])
}

/// Eight bytes as a number, with zeros behind fewer.
#[tactic(auto, using(crate::proofs::EightBytes::from_eight))]
fn leading(bytes: &[u8]) -> u64
    ensures { result ≡ leading 8 bytes.now }
{
    if bytes.len() < 8 {
        return leading_few(bytes);
    }
    u64::from_be_bytes([
        bytes[0], bytes[1], bytes[2], bytes[3], bytes[4], bytes[5], bytes[6], bytes[7],
    ])
}

/// How many bytes two lists of bytes begin with alike.
fn alike(bytes: &[u8], others: &[u8]) -> usize {
    let most = bytes.len().min(others.len());
    for place in 0..most {
        if bytes[place] != others[place] {
            return place;
        }
    }
    most
}

impl Key for FileName {
    ghost use Rattle.ix_pages.specs.Leads.{bytes_lead};

    ghost head_of = { λ key base skip. leading 8 key };

    ghost leads = { λ base skip key other less. bytes_lead 8 key other less };

    fn head(&self, _base: &FileName, _skip: usize) -> u64 {
        leading(self.bytes())
    }

    fn shared(&self, _other: &FileName) -> usize {
        0
    }
}

impl Key for Text {
    ghost use Rattle.ix_pages.specs.Leads.{bytes_lead_from};

    ghost head_of = { λ key base skip. leading_from key base skip };

    ghost leads = { λ base skip key other less. bytes_lead_from base skip key other less };

    fn head(&self, base: &Text, skip: usize) -> u64 {
        head_of(self.bytes(), base.bytes(), skip)
    }

    fn shared(&self, other: &Text) -> usize {
        alike(self.bytes(), other.bytes())
    }
}
