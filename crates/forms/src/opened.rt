//! From a lawful opening form to its values, and what the values say.
//! Groups and tariff rows count from 0.
ghost use Rattle.std.specs.Prelude.{◌≡◌, ℕ, ◌<◌, ◌≤◌, map, length, get_or, Ok, slice_index_or};
ghost use Rattle.forms.specs.Bounds.{least_groups, most_groups, fee_bound, rate_bound};
ghost use Rattle.forms.specs.Figures.{GroupFigures, group_count, figures_of, rates_of};
ghost use Rattle.forms.specs.Openings.{rows_check, terms_of, terms_in};

use crate::group::{Group, TariffRow};
use crate::opening_form::OpeningForm;
use crate::terms::Opening;
use crate::up_to::UpTo;

impl<'a> OpeningForm<'a> {
    /// The terms that a lawful form gives.
    pub fn opening(&self) -> Opening
        requires { rows_check self.now.bytes.now ≡ Ok tt }
        ensures { terms_in result ≡ terms_of self.now.bytes.now }
    {
        Opening {
            groups: UpTo::fill(self.groups(), Group::default(), |a| self.group(a as usize)),
            tariff: UpTo::fill(self.rows(), TariffRow::default(), |r| self.row(r as usize)),
        }
    }
}

impl Opening {
    /// How many groups there are.
    #[tactic(auto, using(crate::proofs::OpeningLaws::count_in))]
    pub fn groups(&self) -> u8
        ensures value { result ≡ self.now.groups.count }
        ensures told { result ≡ group_count (terms_in self.now) }
        ensures some { least_groups ≤ result }
        ensures few { result ≤ most_groups }
    {
        self.groups.count()
    }

    /// What was said of group `a`.
    pub fn group(&self, a: usize) -> Group
        requires { a < self.now.groups.count }
        ensures { (d : GroupFigures) → figures_of result ≡ slice_index_or (terms_in self.now).groups a d }
    {
        self.groups.as_slice()[a]
    }

    /// The tariff rows.
    pub fn tariff(&self) -> &[TariffRow]
        ensures told { map rates_of result.now ≡ (terms_in self.now).tariff }
        ensures rows { length result.now ≡ self.now.tariff.count }
        ensures fees { (k : ℕ) → (get_or result.now k (record { fee = 0; rate = 0 })).fee ≤ fee_bound }
        ensures rates { (k : ℕ) → (get_or result.now k (record { fee = 0; rate = 0 })).rate ≤ rate_bound }
    {
        self.tariff.as_slice()
    }
}
