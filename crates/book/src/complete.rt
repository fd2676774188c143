//! Whether a message has every series that it must have.
ghost use Rattle.std.specs.Prelude.{◌≡◌, ◌<◌, ◌&&◌, is_some};
ghost use Rattle.forms.specs.Checks.{refuse_if};
ghost use Rattle.forms.specs.declared.fault.Fault.TheVariants.{MissingSeries};
ghost use Rattle.forms.specs.Slots.{cons, prod, pump, slots};
ghost use Rattle.message.specs.Places.{first_of, sent_in};
ghost use Rattle.book.specs.Messages.{left_out, incomplete};
ghost use Rattle.book.specs.States.{state_of, size};

use crate::sending::Sending;
use forms::fault::Fault;
use forms::slot::{Slot, slots_per_group};

impl Sending<'_, '_, '_> {
    /// Whether the message has all three forecasts.
    fn has_forecasts(&self) -> bool
        ensures { result ≡ (sent_in self.now.series.message.bytes.now cons && (sent_in self.now.series.message.bytes.now prod && sent_in self.now.series.message.bytes.now pump)) }
    {
        let series = &self.series;
        series.has(Slot::Cons) && series.has(Slot::Prod) && series.has(Slot::Pump)
    }

    /// Whether the slot of this number was sent today and is not sent again.
    fn leaves_out_at(&self, number: usize) -> bool
        requires { number < slots (size (state_of self.now.day.ledger.now)) }
        ensures { result ≡ left_out (state_of self.now.day.ledger.now) self.now.own self.now.series.message.bytes.now number }
    {
        let ledger = self.day.ledger;
        !self.series.has_at(number) && ledger.sent[ledger.place(self.own, number)]
    }

    /// Whether a series that the group has had accepted today is left out.
    fn leaves_out(&self) -> bool
        ensures { result ≡ is_some (first_of (left_out (state_of self.now.day.ledger.now) self.now.own self.now.series.message.bytes.now) (slots (size (state_of self.now.day.ledger.now)))) }
    {
        let groups = self.day.ledger.groups();
        (0..slots_per_group(groups)).any(|number| self.leaves_out_at(number))
    }

    /// Refuses a message that leaves out a series accepted today, or a forecast of a metered group.
    pub(crate) fn check_complete(&self) -> Result<(), Fault>
        ensures { result ≡ refuse_if (incomplete (state_of self.now.day.ledger.now) self.now.own self.now.series.message.bytes.now) MissingSeries }
    {
        if self.leaves_out() {
            return Err(Fault::MissingSeries);
        }
        if self.day.ledger.figures(self.own).metered && !self.has_forecasts() {
            return Err(Fault::MissingSeries);
        }
        Ok(())
    }
}
