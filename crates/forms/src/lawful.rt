//! Which rows of an opening form are lawful. Groups and tariff rows count from 0 here; in a fault
//! they count from 1, and tariff rows count on behind the groups.
ghost use Rattle.std.specs.Prelude.{◌≡◌, ◌<◌};
ghost use Rattle.forms.specs.Checks.{each_of};
ghost use Rattle.forms.specs.Figures.{figures_of, rates_of};
ghost use Rattle.forms.specs.Openings.{groups_told, rows_told, powers_within, plants_metered, rates_within, no_fall, group_row_check, row_check, rows_check};

use crate::bounds::{FEE_BOUND, POWER_BOUND, RATE_BOUND};
use crate::checks::in_order;
use crate::fault::Fault;
use crate::group::{Group, Limits, TariffRow};
use crate::opening::{GROUP_BYTES, OPENING_HEADER};
use crate::opening_form::OpeningForm;

impl Group {
    /// No power is above the bound.
    fn has_powers_within(&self) -> bool
        ensures { result ≡ powers_within (figures_of self.now) }
    {
        let Limits { ahead, near, after } = self.limits;
        let highest_limit = ahead.max(near).max(after);
        self.prod_max.max(self.pump_depth).max(highest_limit) <= POWER_BOUND
    }

    /// Without metering points there is neither production nor a pump.
    fn has_plants_metered(&self) -> bool
        ensures { result ≡ plants_metered (figures_of self.now) }
    {
        self.metered || (self.prod_max == 0 && self.pump_depth == 0)
    }
}

impl TariffRow {
    /// Neither figure is above its bound.
    fn is_within_bounds(&self) -> bool
        ensures { result ≡ rates_within (rates_of self.now) }
    {
        self.fee <= FEE_BOUND && self.rate <= RATE_BOUND
    }

    /// Neither figure falls to the next row.
    fn is_at_most(&self, next: &TariffRow) -> bool
        ensures { result ≡ no_fall (rates_of self.now) (rates_of next.now) }
    {
        self.fee <= next.fee && self.rate <= next.rate
    }
}

impl<'a> OpeningForm<'a> {
    fn check_group(&self, a: usize) -> Result<(), Fault>
        requires { a < groups_told self.now.bytes.now }
        ensures { result ≡ group_row_check self.now.bytes.now a }
    {
        // the byte itself, since all but 0 and 1 are unlawful
        let flag = self.bytes[OPENING_HEADER + GROUP_BYTES * a];
        let group = self.group(a);
        if flag <= 1 && group.has_powers_within() && group.has_plants_metered() {
            return Ok(());
        }
        Err(Fault::UnlawfulGroup {
            group: a as u16 + 1,
        })
    }

    fn check_row(&self, r: usize) -> Result<(), Fault>
        requires { r < rows_told self.now.bytes.now }
        ensures { result ≡ row_check self.now.bytes.now (groups_told self.now.bytes.now) r }
    {
        let row = self.row(r);
        if row.is_within_bounds() && (r == 0 || self.row(r - 1).is_at_most(&row)) {
            return Ok(());
        }
        Err(Fault::UnlawfulTariff {
            place: u16::from(self.groups()) + r as u16 + 1,
        })
    }

    #[tactic(auto, using(crate::proofs::Firsts::each_in_order))]
    fn check_groups(&self) -> Result<(), Fault>
        ensures { result ≡ each_of (group_row_check self.now.bytes.now) (groups_told self.now.bytes.now) }
    {
        in_order(self.groups(), |a| self.check_group(a as usize))
    }

    #[tactic(auto, using(crate::proofs::Firsts::each_in_order))]
    fn check_tariff(&self) -> Result<(), Fault>
        ensures { result ≡ each_of (row_check self.now.bytes.now (groups_told self.now.bytes.now)) (rows_told self.now.bytes.now) }
    {
        in_order(self.rows(), |r| self.check_row(r as usize))
    }

    /// Refuses a form with an unlawful group row, or else with an unlawful tariff row.
    pub fn check_rows(&self) -> Result<(), Fault>
        ensures { result ≡ rows_check self.now.bytes.now }
    {
        self.check_groups()?;
        self.check_tariff()
    }
}
