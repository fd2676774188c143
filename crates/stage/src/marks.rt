//! The marks of one group's days.
ghost use Rattle.std.specs.Prelude.{◌≡◌, ◌≤◌, length};
ghost use Rattle.forms.specs.Calendar.{year_days};

/// The marks of one group's days, from day 1 to day `days`.
/// Day d is bit (d - 1) % 64 of word (d - 1) / 64; bits past the last day mean nothing.
// Words and a count, since no heap is used.
#[derive(Clone, Copy)]
pub struct Marks {
    pub(crate) words: [u64; 6],
    pub(crate) days: u16,
    ghost year: { days ≤ year_days },
    ghost size: { length words ≡ 6 },
}
