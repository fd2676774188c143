//! A schedule message in bytes, read in place.
//!
//! Series and quarter hours count from 0; only the places of faults and of a series as read count
//! from 1. Each function asks that the series or the slot it is given is there, and that there are at
//! most 16 groups, as an index is asked to be in range.
#![tactic(auto)]

ghost use Rattle.std.specs.Prelude.{◌≡◌, ℕ, ◌+◌, ◌*◌, ◌/◌, ◌<◌, ◌≤◌, length, slice_index_or, []};
ghost use Rattle.forms.specs.Bytes.{be32};
ghost use Rattle.message.specs.Form.{Formed, series_count, said, head_of, value_at, values_at, values_start};

pub mod by_slot;
pub mod heads;
mod reader;
mod scan;
pub mod series;
pub mod values;

pub use crate::reader::MessageReader;
use forms::bytes::{be16_at, be32_at};

/// The length of a message's header.
pub const HEADER: usize = 8;

/// What the header says: how many series there are, and the group, version and day of the message.
#[derive(Clone, Copy)]
pub struct Header {
    pub count: u8,
    pub group: u16,
    pub version: u16,
    pub day: u16,
}

/// The head of a series, as its two bytes have it: its kind may be none that there is.
#[derive(Clone, Copy)]
pub struct Head {
    pub kind: u8,
    pub counter: u8,
}

/// A message in its bytes, for a day of `quarters` quarter hours, as long as its sizes give.
#[derive(Clone, Copy)]
pub struct Message<'a> {
    bytes: &'a [u8],
    quarters: u8,
    ghost formed: { Formed quarters bytes.now },
}

/// The place of a series or a quarter hour as a fault names it, from 1.
pub(crate) fn place(index: u8) -> u16
    ensures { result ≡ index + 1 }
{
    u16::from(index) + 1
}

/// The values in these bytes, each in its four bytes.
pub(crate) fn words_of(bytes: &[u8]) -> &[[u8; 4]]
    ensures count { length result.now ≡ length bytes.now / 4 }
    ensures each { (t : ℕ) → t < length result.now → be32 (slice_index_or result.now t []) 0 ≡ be32 bytes.now (4 * t) }
{
    let (words, _) = bytes.as_chunks();
    words
}

impl<'a> Message<'a> {
    /// What the header says.
    pub fn header(&self) -> Header
        ensures { result ≡ said self.now.bytes.now }
    {
        Header {
            count: self.count(),
            group: be16_at(self.bytes, 2),
            version: be16_at(self.bytes, 4),
            day: be16_at(self.bytes, 6),
        }
    }

    /// How many series the message has.
    pub fn count(&self) -> u8
        ensures { result ≡ series_count self.now.bytes.now }
    {
        self.bytes[0]
    }

    /// The head of series `i`.
    pub(crate) fn head(&self, i: u8) -> Head
        requires { i < series_count self.now.bytes.now }
        ensures { result ≡ head_of self.now.bytes.now i }
    {
        let at = HEADER + 2 * i as usize;
        Head {
            kind: self.bytes[at],
            counter: self.bytes[at + 1],
        }
    }

    /// Where the values of series `i` begin.
    fn start(&self, i: u8) -> usize
        requires { i < series_count self.now.bytes.now }
        ensures value { result ≡ values_start self.now.quarters self.now.bytes.now i }
        ensures room { result + 4 * self.now.quarters ≤ length self.now.bytes.now }
    {
        HEADER + 2 * self.count() as usize + 4 * (i as usize * self.quarters as usize)
    }

    /// The value of series `i` at quarter hour `t`.
    pub(crate) fn value(&self, i: u8, t: u8) -> u32
        requires there { i < series_count self.now.bytes.now }
        requires within { t < self.now.quarters }
        ensures { result ≡ value_at self.now.quarters self.now.bytes.now i t }
    {
        be32_at(self.bytes, self.start(i) + 4 * t as usize)
    }

    /// The bytes of the values of series `i`.
    pub(crate) fn values(&self, i: u8) -> &'a [u8]
        requires { i < series_count self.now.bytes.now }
        ensures { result.now ≡ values_at self.now.quarters self.now.bytes.now i }
    {
        let start = self.start(i);
        &self.bytes[start..start + 4 * self.quarters as usize]
    }

    /// The values of series `i`, each in its four bytes.
    pub(crate) fn words(&self, i: u8) -> &'a [[u8; 4]]
        requires { i < series_count self.now.bytes.now }
        ensures count { length result.now ≡ self.now.quarters }
        ensures each { (t : ℕ) → t < self.now.quarters → be32 (slice_index_or result.now t []) 0 ≡ value_at self.now.quarters self.now.bytes.now i t }
    {
        words_of(self.values(i))
    }
}
