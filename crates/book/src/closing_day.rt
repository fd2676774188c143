//! A day that is to be closed.
ghost use Rattle.std.specs.Prelude.{◌≡◌};
ghost use Rattle.settlement.specs.declared.phase.Phase.TheVariants.{After};
ghost use Rattle.book.specs.Closes.{Closing};
ghost use Rattle.book.specs.States.{state_of};

use crate::open_day::OpenDay;
use forms::closing::ClosingForm;

/// A day past its cut-off, and a lawful closing form for it.
#[derive(Clone, Copy)]
pub struct ClosingDay<'l, 'w, 'f> {
    pub(crate) day: OpenDay<'l, 'w>,
    pub(crate) form: ClosingForm<'f>,
    ghost after: { day.ledger.now.phase ≡ After },
    ghost closing: { Closing (state_of day.ledger.now) form.groups form.quarters form.bytes.now },
}
