//! An opening form whose sizes are right, and what it says. Groups and tariff rows count from 0
//! here; in a fault they count from 1.
ghost use Rattle.std.specs.Prelude.{◌≡◌, ◌<◌, Ok};
ghost use Rattle.forms.specs.Figures.{figures_of, rates_of};
ghost use Rattle.forms.specs.Openings.{OpeningFormed, sizes_check, groups_told, rows_told, group_at, row_at};

use crate::bytes::be32_at;
use crate::group::{Group, Limits, TariffRow};
use crate::opening::{GROUP_BYTES, OPENING_HEADER, ROW_BYTES};

/// An opening form in its bytes, with the sizes and the length of one.
#[derive(Clone, Copy)]
pub struct OpeningForm<'a> {
    pub(crate) bytes: &'a [u8],
    ghost formed: { OpeningFormed bytes.now },
    ghost passed: { sizes_check bytes.now ≡ Ok tt },
}

impl<'a> OpeningForm<'a> {
    /// How many groups the form has.
    pub fn groups(&self) -> u8
        ensures { result ≡ groups_told self.now.bytes.now }
    {
        self.bytes[0]
    }

    /// How many tariff rows the form has.
    pub(crate) fn rows(&self) -> u8
        ensures { result ≡ rows_told self.now.bytes.now }
    {
        self.bytes[1]
    }

    /// What the form says of group `a`.
    #[tactic(auto, unfolding(crate::specs::Openings::group_at))]
    pub(crate) fn group(&self, a: usize) -> Group
        requires { a < groups_told self.now.bytes.now }
        ensures { figures_of result ≡ group_at self.now.bytes.now a }
    {
        let at = OPENING_HEADER + GROUP_BYTES * a;
        Group {
            metered: self.bytes[at] == 1,
            prod_max: be32_at(self.bytes, at + 1),
            pump_depth: be32_at(self.bytes, at + 5),
            limits: Limits {
                ahead: be32_at(self.bytes, at + 9),
                near: be32_at(self.bytes, at + 13),
                after: be32_at(self.bytes, at + 17),
            },
        }
    }

    /// What the form says in tariff row `r`.
    #[tactic(auto, unfolding(crate::specs::Openings::row_at))]
    pub(crate) fn row(&self, r: usize) -> TariffRow
        requires { r < rows_told self.now.bytes.now }
        ensures { rates_of result ≡ row_at self.now.bytes.now (groups_told self.now.bytes.now) r }
    {
        let at = OPENING_HEADER + GROUP_BYTES * self.groups() as usize + ROW_BYTES * r;
        TariffRow {
            fee: be32_at(self.bytes, at),
            rate: be32_at(self.bytes, at + 4),
        }
    }
}
