//! A new ledger.
ghost use Rattle.std.specs.Prelude.{◌≡◌, ℕ, false, map, replicate, slice_index};
ghost use Rattle.forms.specs.Bounds.{most_groups};
ghost use Rattle.forms.specs.Openings.{terms_in};
ghost use Rattle.book.specs.Kept.{days_in, penalties_in, balance_in};
ghost use Rattle.book.specs.Opens.{new_book};
ghost use Rattle.book.specs.States.{state_of, account_of, nothing_kept};
ghost use Rattle.book.specs.Sheets.{all_flags};

use crate::group_account::GroupAccount;
use crate::ledger::{ACCOUNTS, FLAGS, Ledger};
use forms::terms::Opening;
use settlement::phase::Phase;
use stage::marks::Marks;

/// Nothing is sent.
pub(crate) fn nothing_sent() -> [bool; FLAGS]
    ensures { result ≡ replicate all_flags false }
{
    [false; FLAGS]
}

/// Nothing is kept for any group.
fn nothing_kept() -> [GroupAccount; ACCOUNTS]
    ensures states { map account_of result ≡ replicate most_groups nothing_kept }
    ensures days { (k : ℕ) → slice_index (map days_in result) k ≡ 0 }
    ensures penalties { (k : ℕ) → slice_index (map penalties_in result) k ≡ 0 }
    ensures balances { (k : ℕ) → slice_index (map balance_in result) k ≡ 0 }
{
    // Made here alone, so that no `Default` is needed.
    let account = GroupAccount {
        version: 0,
        marks: Marks::none(),
        due: 0,
        penalties: 0,
        balance: 0,
    };
    [account; ACCOUNTS]
}

impl Ledger {
    /// Day 1, ahead, with no marks and no totals, and nothing sent.
    pub(crate) fn begun(opening: Opening) -> Ledger
        ensures { state_of result ≡ new_book (terms_in opening) }
    {
        let sent = nothing_sent();
        let accounts = nothing_kept();
        Ledger {
            opening,
            closed: 0,
            phase: Phase::Ahead,
            sent,
            accounts,
        }
    }
}
