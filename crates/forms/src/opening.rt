//! Bytes that may be an opening form: sizes, group rows, tariff rows.
ghost use Rattle.std.specs.Prelude.{◌≡◌, IfOk, OnOk};
ghost use Rattle.forms.specs.Checks.{verdict};
ghost use Rattle.forms.specs.Openings.{OpeningFormed, sizes_check};

use crate::bounds::{LEAST_GROUPS, LEAST_ROWS, MOST_GROUPS, MOST_ROWS};
use crate::fault::Fault;
pub use crate::opening_form::OpeningForm;
pub use crate::terms::Opening;

/// The length of the header: one byte for the groups, one for the tariff rows.
pub const OPENING_HEADER: usize = 2;

/// The length of a group row.
pub const GROUP_BYTES: usize = 21;

/// The length of a tariff row.
pub const ROW_BYTES: usize = 8;

/// Bytes that are to be read as an opening form.
#[derive(Clone, Copy)]
pub struct OpeningReader<'a> {
    bytes: &'a [u8],
}

impl<'a> OpeningReader<'a> {
    /// A reader over these bytes.
    pub fn new(bytes: &'a [u8]) -> OpeningReader<'a>
        ensures { result.bytes.now ≡ bytes.now }
    {
        OpeningReader { bytes }
    }

    /// Refuses a form whose sizes, or whose length, are not such as an opening form has.
    fn check_sizes(&self) -> Result<(), Fault>
        ensures value { result ≡ sizes_check self.now.bytes.now }
        ensures formed { OnOk result (OpeningFormed self.now.bytes.now) }
    {
        let [groups, rows, ..] = self.bytes else {
            return Err(Fault::ShortForm);
        };
        let (groups, rows) = (*groups as usize, *rows as usize);
        let (LEAST_GROUPS..=MOST_GROUPS, LEAST_ROWS..=MOST_ROWS) = (groups, rows) else {
            return Err(Fault::WrongSize);
        };
        if self.bytes.len() != OPENING_HEADER + GROUP_BYTES * groups + ROW_BYTES * rows {
            return Err(Fault::WrongLength);
        }
        Ok(())
    }

    /// The form, once its sizes and its length are such as an opening form has.
    pub fn form(&self) -> Result<OpeningForm<'a>, Fault>
        ensures value { verdict result ≡ sizes_check self.now.bytes.now }
        ensures bytes { IfOk result (λ form. form.bytes.now ≡ self.now.bytes.now) }
    {
        self.check_sizes()?;
        Ok(OpeningForm { bytes: self.bytes })
    }
}
