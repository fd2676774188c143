//! The terms under which a book is opened, as values.
ghost use Rattle.std.specs.Prelude.{take};
ghost use Rattle.forms.specs.Lawful.{LawfulTerms, terms_from};

use crate::bounds::{MOST_GROUPS, MOST_ROWS};
use crate::group::{Group, TariffRow};
use crate::up_to::UpTo;

/// What a lawful opening form says.
#[derive(Clone, Copy)]
pub struct Opening {
    pub(crate) groups: UpTo<Group, MOST_GROUPS>,
    pub(crate) tariff: UpTo<TariffRow, MOST_ROWS>,
    ghost lawful: { LawfulTerms (terms_from (take groups.count groups.places) (take tariff.count tariff.places)) },
}
