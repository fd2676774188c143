//! Days and their quarter hours.
ghost use Rattle.std.specs.Prelude.{◌≡◌};
ghost use Rattle.forms.specs.Calendar.{quarters};

/// The number of days that a book keeps.
pub const DAYS: u16 = 366;

/// How many quarter hours the day has.
#[tactic(auto, unfolding(crate::specs::Calendar::quarters))]
pub fn quarters_of(day: u16) -> u8
    ensures { result ≡ quarters day }
{
    // The one place that would look at the day if days ever differed in length.
    let _ = day;
    96
}
