//! What a book holds besides its rule.
ghost use Rattle.std.specs.Prelude.{◌≡◌, ℕ, ◌*◌, ◌≤◌, map, length, slice_index};
ghost use Rattle.forms.specs.Bounds.{most_groups};
ghost use Rattle.forms.specs.Calendar.{year_days};
ghost use Rattle.book.specs.Sheets.{all_flags};
ghost use Rattle.book.specs.Kept.{cut_offs, days_in, penalties_in, balance_in, most_penalty, most_balance};

use crate::group_account::GroupAccount;
use forms::bounds::MOST_GROUPS;
use forms::terms::Opening;
use settlement::phase::Phase;

/// The presence flags: one for each slot of 16 groups.
pub const FLAGS: usize = 560;

/// The accounts of 16 groups.
pub const ACCOUNTS: usize = MOST_GROUPS;

/// The day and phase, the slots sent today, and what is kept for each group.
/// Groups count from 0; the places of the arrays past the book's groups are not used.
#[derive(Clone, Copy)]
pub struct Ledger {
    pub(crate) opening: Opening,
    /// How many days are closed.
    pub(crate) closed: u16,
    pub(crate) phase: Phase,
    // No heap is used, so both arrays have room for 16 groups.
    /// Whether a slot was sent today, by its place in the sheet.
    pub(crate) sent: [bool; FLAGS],
    pub(crate) accounts: [GroupAccount; ACCOUNTS],
    ghost year: { cut_offs closed phase ≤ year_days },
    ghost flags: { length sent ≡ all_flags },
    ghost groups: { length accounts ≡ most_groups },
    ghost marked: { (k : ℕ) → slice_index (map days_in accounts) k ≤ cut_offs closed phase },
    ghost owed: { (k : ℕ) → slice_index (map penalties_in accounts) k ≤ cut_offs closed phase * most_penalty },
    ghost settled: { (k : ℕ) → slice_index (map balance_in accounts) k ≤ closed * most_balance },
}
