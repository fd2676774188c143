//! A message.
ghost use Rattle.std.specs.Prelude.{◌≡◌, ◌-◌, ◌<◌, Ok};
ghost use Rattle.message.specs.Form.{said};
ghost use Rattle.book.specs.SheetWords.{words_in};
ghost use Rattle.book.specs.Messages.{sender_check, series_check, submit_check, submitted};
ghost use Rattle.book.specs.Takes.{IsAccepted};
ghost use Rattle.forms.specs.Checks.{Finds};
ghost use Rattle.book.specs.States.{state_of, size};

use crate::answers::Submitted;
use crate::group_account::GroupAccount;
use crate::growth::Stating;
use crate::ledger::{FLAGS, Ledger};
use crate::open_day::OpenDay;
use crate::sending::Sending;
use crate::sheet_words::SheetWords;
use forms::fault::Fault;
use message::{Header, Message, MessageReader};

/// A message that a book has accepted, the place of its sender, its version, and which slots are sent
/// once it is taken. It does not borrow the sheet that it was tested on, so that the sheet can be written.
#[derive(Clone, Copy)]
pub(crate) struct Accepted<'m> {
    pub(crate) message: Message<'m>,
    pub(crate) own: usize,
    pub(crate) version: u16,
    pub(crate) sent: [bool; FLAGS],
}

impl Sending<'_, '_, '_> {
    /// The tests of the message's series past their heads.
    fn check_series(&self) -> Result<(), Fault>
        ensures { result ≡ series_check (state_of self.now.day.ledger.now) self.now.day.sheet.now self.now.own self.now.series.message.bytes.now }
    {
        let metered = self.day.ledger.figures(self.own).metered;
        self.check_complete()?;
        self.series.check_values(metered)?;
        Stating { sending: self }.check_growth()
    }
}

impl Ledger {
    /// Refuses a message of no group of the book, of another day, or of a version that is not the
    /// next; answers the place of the sender.
    fn check_sender(&self, header: Header) -> Result<usize, Fault>
        ensures { Finds result (sender_check (state_of self.now) header.group header.day header.version) (λ own. (own ≡ header.group - 1) × (own < size (state_of self.now))) }
    {
        let own = self.check_group(header.group)?;
        if header.day != self.day() {
            return Err(Fault::WrongDay);
        }
        if u32::from(header.version) != u32::from(self.account(own).version) + 1 {
            return Err(Fault::WrongVersion);
        }
        Ok(own)
    }

    /// The message in these bytes, once it has passed all tests.
    fn check_message<'l, 'w, 'm>(
        &'l self,
        form: &'m [u8],
        sheet: SheetWords<'w>,
    ) -> Result<Sending<'l, 'w, 'm>, Fault>
        ensures { Finds result (submit_check (state_of self.now) (words_in sheet.entry) form.now) (λ x. (x.day.ledger.now ≡ self.now) × (x.day.sheet.now ≡ words_in sheet.entry) × (x.series.message.bytes.now ≡ form.now) × (x.own ≡ (said form.now).group - 1) × (x.version ≡ (said form.now).version)) }
    {
        let message = MessageReader::new(form, self.quarters()).message()?;
        let day = self.open_day(sheet)?;
        let header = message.header();
        let own = self.check_sender(header)?;
        let series = message.check_heads(self.groups() as u8, own as u8)?;
        let sending = Sending {
            day,
            series,
            own,
            version: header.version,
        };
        sending.check_series()?;
        Ok(sending)
    }

    /// The message in these bytes, once it has passed all tests, free of the sheet that is to take it.
    pub(crate) fn accept<'m>(
        &self,
        form: &'m [u8],
        sheet: SheetWords<'_>,
    ) -> Result<Accepted<'m>, Fault>
        ensures { Finds result (submit_check (state_of self.now) (words_in sheet.entry) form.now) (IsAccepted (state_of self.now) form.now) }
    {
        let sending = self.check_message(form, sheet)?;
        Ok(Accepted {
            message: sending.series.message(),
            own: sending.own,
            version: sending.version,
            sent: sending.flags_after(),
        })
    }

    /// Takes a message that has passed all tests.
    pub(crate) fn take(&mut self, accepted: &Accepted<'_>, sheet: &mut [u32]) -> Submitted
        requires passed { submit_check (state_of self.old) sheet.old accepted.now.message.bytes.now ≡ Ok tt }
        requires accepted { IsAccepted (state_of self.old) accepted.now.message.bytes.now accepted.now }
        ensures { (Ok (result.beyond, result.first), state_of self.new, sheet.new) ≡ submitted (state_of self.old) sheet.old accepted.now.message.bytes.now }
    {
        let own = accepted.own;
        let mut accounts = self.accounts;
        accounts[own] = GroupAccount {
            version: accepted.version,
            ..self.account(own)
        };
        self.lay(&accepted.message, own, sheet);
        self.sent = accepted.sent;
        self.accounts = accounts;
        let day = OpenDay {
            ledger: self,
            sheet,
        };
        day.beyond(own)
    }
}
