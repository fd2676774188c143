//! After the cut-off a trading group may not move farther out beyond its limit.
ghost use Rattle.std.specs.Prelude.{◌≡◌, ℕ, ◌^◌, ◌<◌, ◌≤◌, not, ◌&&◌, slice_index, Ok};
ghost use Rattle.forms.specs.Figures.{figures_of};
ghost use Rattle.forms.specs.Slots.{slot_of, Within};
ghost use Rattle.message.specs.Places.{stated};
ghost use Rattle.message.specs.Values.{in_message, range_check};
ghost use Rattle.settlement.specs.declared.phase.Phase.TheVariants.{After};
ghost use Rattle.settlement.specs.Days.{day_net, HasRoom, GrowsAtMostAWord, Adds};
ghost use Rattle.settlement.specs.Positions.{stated_check, stated_with, open_position, is_beyond, no_farther};
ghost use Rattle.book.specs.Messages.{by_message, each_growth, growth_check};
ghost use Rattle.book.specs.States.{state_of, size, day_quarters};

use crate::beyond::count_outside;
use crate::sending::Sending;
use forms::fault::Fault;
use forms::group::Group;
use forms::slot::Slot;
use settlement::band::Band;
use settlement::day::DayTrades;
use settlement::phase::Phase;
use settlement::positions::{excess, no_farther, open_position};
use settlement::words::add_words;

/// Whether an open position is beyond the limit after the cut-off and farther out than the last.
fn farther_out(figures: &Group, next: i64, last: i64) -> bool
    ensures { result ≡ (is_beyond (figures_of figures.now) After next && not (no_farther next last)) }
{
    excess(figures, Phase::After, next) > 0 && !no_farther(next, last)
}

/// The same of the open positions of two check values.
fn moves_out(figures: &Group, next: i32, last: i32) -> bool
    ensures { result ≡ (is_beyond (figures_of figures.now) After (open_position (figures_of figures.now) next) && not (no_farther (open_position (figures_of figures.now) next) (open_position (figures_of figures.now) last))) }
{
    let next = open_position(figures, i64::from(next));
    let last = open_position(figures, i64::from(last));
    farther_out(figures, next, last)
}

/// A message whose values are within the bound on powers, so that they can be added.
#[derive(Clone, Copy)]
pub(crate) struct Stating<'s, 'l, 'w, 'm> {
    pub(crate) sending: &'s Sending<'l, 'w, 'm>,
    ghost ranges: { in_message sending.now.series.message.quarters sending.now.series.message.bytes.now (range_check sending.now.series.message.quarters sending.now.series.message.bytes.now) ≡ Ok tt },
}

impl Stating<'_, '_, '_, '_> {
    /// Adds what the message states for a slot to a day's sums; a slot that it does not have adds
    /// nothing.
    fn add_series(&self, slot: Slot, sums: &mut [u32])
        requires within { Within (size (state_of self.now.sending.now.day.ledger.now)) (slot_of slot) }
        requires room { HasRoom sums.old }
        ensures value { Adds (day_quarters (state_of self.now.sending.now.day.ledger.now)) (stated self.now.sending.now.series.message.quarters self.now.sending.now.series.message.bytes.now (slot_of slot)) sums.old sums.new }
        ensures bound { GrowsAtMostAWord sums.old sums.new }
    {
        let series = &self.sending.series;
        if let Some(words) = series.words(slot) {
            add_words(&mut sums[..words.len()], |t| u32::from_be_bytes(words[t]));
        }
    }

    /// The trades that the message states.
    fn trades(&self) -> DayTrades
        ensures low { (t : ℕ) → slice_index result.given t ≤ 2 ^ 28 }
        ensures value { (t : ℕ) → t < day_quarters (state_of self.now.sending.now.day.ledger.now) → day_net result.taken result.given t ≡ stated_with (by_message self.now.sending.now.own self.now.sending.now.series.message.quarters self.now.sending.now.series.message.bytes.now) t self.now.sending.now.own (size (state_of self.now.sending.now.day.ledger.now)) }
    {
        let Sending { day, own, .. } = *self.sending;
        DayTrades::with_others(day.ledger.groups(), own, |b, taken, given| {
            self.add_series(Slot::InFrom(b as u8), taken);
            self.add_series(Slot::OutTo(b as u8), given);
        })
    }

    /// The check values that the message states: its trades, with its consumption among what is given.
    fn checks(&self) -> DayTrades
        ensures { (t : ℕ) → t < day_quarters (state_of self.now.sending.now.day.ledger.now) → day_net result.taken result.given t ≡ stated_check (by_message self.now.sending.now.own self.now.sending.now.series.message.quarters self.now.sending.now.series.message.bytes.now) (size (state_of self.now.sending.now.day.ledger.now)) t self.now.sending.now.own }
    {
        let mut checks = self.trades();
        self.add_series(Slot::Cons, &mut checks.given);
        checks
    }

    /// Refuses the first quarter hour at which the message moves the group farther out.
    fn check_each_growth(&self) -> Result<(), Fault>
        ensures { result ≡ each_growth (state_of self.now.sending.now.day.ledger.now) self.now.sending.now.day.sheet.now self.now.sending.now.own self.now.sending.now.series.message.bytes.now (day_quarters (state_of self.now.sending.now.day.ledger.now)) }
    {
        let Sending { day, own, .. } = *self.sending;
        let figures = day.ledger.figures(own);
        let quarters = day.ledger.quarters();
        let next = self.checks();
        // Where the message states nothing beyond the limit, what was stated before need not be added up.
        if count_outside(&Band::new(&figures, Phase::After), &next, quarters) == 0 {
            return Ok(());
        }
        let last = day.on_sheet().stated_checks(own);
        for t in 0..usize::from(quarters) {
            if moves_out(&figures, next.net(t), last.net(t)) {
                return Err(Fault::GrowingPosition {
                    quarter: t as u16 + 1,
                });
            }
        }
        Ok(())
    }

    /// Refuses, after the cut-off, a message that moves a trading group farther out.
    pub(crate) fn check_growth(&self) -> Result<(), Fault>
        ensures { result ≡ growth_check (state_of self.now.sending.now.day.ledger.now) self.now.sending.now.day.sheet.now self.now.sending.now.own self.now.sending.now.series.message.bytes.now }
    {
        let Sending { day, own, .. } = *self.sending;
        let Phase::After = day.ledger.phase else {
            return Ok(());
        };
        if day.ledger.figures(own).metered {
            return Ok(());
        }
        self.check_each_growth()
    }
}
