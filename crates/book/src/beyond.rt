//! Quarter hours beyond the limit.
ghost use Rattle.std.specs.Prelude.{◌≡◌, ◌+◌, ◌<◌, ◌≤◌};
ghost use Rattle.std.specs.Option.{option_map};
ghost use Rattle.message.specs.Places.{first_of};
ghost use Rattle.settlement.specs.Sheets.{words_per_slot};
ghost use Rattle.book.specs.Messages.{beyond_now};
ghost use Rattle.book.specs.States.{state_of, size, day_quarters};
ghost use Rattle.book.specs.Tallies.{count_where, tally, is_outside_at};

use crate::answers::Submitted;
use crate::open_day::OpenDay;
use settlement::band::Band;
use settlement::day::DayTrades;

/// How many of the first quarter hours have a check value outside of the band.
pub(crate) fn count_outside(band: &Band, checks: &DayTrades, quarters: u8) -> u16
    requires { quarters ≤ words_per_slot }
    ensures { result ≡ count_where (is_outside_at band.now checks.now) quarters }
{
    // No `filter` and `count`: without a branch in the loop, four quarter hours are taken at a time.
    let mut outside: u16 = 0;
    for t in 0..u16::from(quarters) {
        outside += u16::from(band.is_outside(checks.net(usize::from(t))));
    }
    outside
}

/// The first of them, from 1.
fn first_outside(band: &Band, checks: &DayTrades, quarters: u8) -> Option<u16>
    requires { quarters ≤ words_per_slot }
    ensures { result ≡ option_map (λ t. t + 1) (first_of (is_outside_at band.now checks.now) quarters) }
{
    for t in 0..u16::from(quarters) {
        if band.is_outside(checks.net(usize::from(t))) {
            return Some(t + 1);
        }
    }
    None
}

/// How many there are, and the first.
fn tally_outside(band: &Band, checks: &DayTrades, quarters: u8) -> Submitted
    requires { quarters ≤ words_per_slot }
    ensures { (result.beyond, result.first) ≡ tally (is_outside_at band.now checks.now) quarters }
{
    let beyond = count_outside(band, checks, quarters);
    // Only where there are some is the first looked for.
    if beyond == 0 {
        return Submitted {
            beyond,
            first: None,
        };
    }
    let first = first_outside(band, checks, quarters);
    Submitted { beyond, first }
}

impl OpenDay<'_, '_> {
    /// How many quarter hours of the group have a stated open position beyond the phase's limit, and
    /// the first of them.
    pub(crate) fn beyond(&self, own: usize) -> Submitted
        requires { own < size (state_of self.now.ledger.now) }
        ensures { (result.beyond, result.first) ≡ tally (beyond_now (state_of self.now.ledger.now) self.now.sheet.now own) (day_quarters (state_of self.now.ledger.now)) }
    {
        let band = Band::new(&self.ledger.figures(own), self.ledger.phase);
        let checks = self.on_sheet().stated_checks(own);
        tally_outside(&band, &checks, self.ledger.quarters())
    }
}
