//! Bytes that may be a closing form: sizes, feed-ins, long prices and short prices.
ghost use Rattle.std.specs.Prelude.{◌≡◌, IfOk, Ok, OnOk};
ghost use Rattle.forms.specs.Checks.{verdict};
ghost use Rattle.forms.specs.Closings.{ClosingFormed, closing_sizes};

pub use crate::closing_form::ClosingForm;
use crate::fault::Fault;

/// The length of the header: one byte for the groups, one for the quarter hours.
pub const CLOSING_HEADER: usize = 2;

/// The length of a number.
pub const VALUE_BYTES: usize = 4;

/// The series of prices, behind one of feed-ins for each group: long, then short.
pub const PRICE_SERIES: usize = 2;

/// Bytes that are to be read as a closing form, for a book's number of groups and a day's number of
/// quarter hours.
#[derive(Clone, Copy)]
pub struct ClosingReader<'a> {
    bytes: &'a [u8],
    groups: u8,
    quarters: u8,
}

impl<'a> ClosingReader<'a> {
    /// A reader over these bytes.
    pub fn new(bytes: &'a [u8], groups: u8, quarters: u8) -> ClosingReader<'a>
        ensures bytes { result.bytes.now ≡ bytes.now }
        ensures groups { result.groups ≡ groups }
        ensures quarters { result.quarters ≡ quarters }
    {
        ClosingReader {
            bytes,
            groups,
            quarters,
        }
    }

    /// Refuses a form whose sizes are not those of the book and the day, or whose length is another.
    fn check_sizes(&self) -> Result<(), Fault>
        ensures value { result ≡ closing_sizes self.now.groups self.now.quarters self.now.bytes.now }
        ensures formed { OnOk result (ClosingFormed self.now.groups self.now.quarters self.now.bytes.now) }
    {
        let [groups, quarters, ..] = self.bytes else {
            return Err(Fault::ShortForm);
        };
        if *groups != self.groups || *quarters != self.quarters {
            return Err(Fault::WrongSize);
        }
        let values = self.quarters as usize * (self.groups as usize + PRICE_SERIES);
        if self.bytes.len() != CLOSING_HEADER + VALUE_BYTES * values {
            return Err(Fault::WrongLength);
        }
        Ok(())
    }

    /// The form, where the length is known to be what the sizes of the book and the day give.
    pub fn formed(&self) -> ClosingForm<'a>
        requires { ClosingFormed self.now.groups self.now.quarters self.now.bytes.now }
        ensures bytes { result.bytes.now ≡ self.now.bytes.now }
        ensures groups { result.groups ≡ self.now.groups }
        ensures quarters { result.quarters ≡ self.now.quarters }
    {
        ClosingForm {
            bytes: self.bytes,
            groups: self.groups,
            quarters: self.quarters,
        }
    }

    /// The form, once its sizes are those of the book and the day, and its length is theirs.
    pub fn form(&self) -> Result<ClosingForm<'a>, Fault>
        ensures value { verdict result ≡ closing_sizes self.now.groups self.now.quarters self.now.bytes.now }
        ensures bytes { IfOk result (λ form. form.bytes.now ≡ self.now.bytes.now) }
        ensures groups { IfOk result (λ form. form.groups ≡ self.now.groups) }
        ensures quarters { IfOk result (λ form. form.quarters ≡ self.now.quarters) }
        ensures passed { IfOk result (λ form. closing_sizes form.groups form.quarters form.bytes.now ≡ Ok tt) }
    {
        self.check_sizes()?;
        Ok(self.formed())
    }
}
