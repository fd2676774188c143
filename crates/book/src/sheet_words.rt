//! The sheet that a call reads.
ghost use Rattle.std.specs.Prelude.{◌≡◌, ◌≤◌};
ghost use Rattle.forms.specs.Bounds.{most_groups};
ghost use Rattle.book.specs.SheetWords.{words_in};
ghost use Rattle.book.specs.Sheets.{sheet_fits};

use crate::lawful_sheet::LawfulSheet;
use crate::whole_sheet::all_powers;
use settlement::sheet::sheet_size;

/// The sheet that a call reads: lent by a caller, who may have written any words, or lawful by its type.
/// Only the words of the first are tested.
#[derive(Clone, Copy)]
pub(crate) enum SheetWords<'w> {
    Lent(&'w [u32]),
    Lawful(&'w LawfulSheet),
}

impl<'w> SheetWords<'w> {
    /// Its words.
    pub(crate) fn words(self) -> &'w [u32]
        ensures { result.now ≡ words_in self.entry }
    {
        match self {
            SheetWords::Lent(words) => words,
            SheetWords::Lawful(sheet) => sheet.words(),
        }
    }

    /// Whether it has the length for so many groups, and no word above the bound on powers.
    pub(crate) fn fits(self, groups: usize) -> bool
        requires { groups ≤ most_groups }
        ensures { result ≡ sheet_fits groups (words_in self.entry) }
    {
        match self {
            SheetWords::Lent(words) => words.len() == sheet_size(groups) && all_powers(words),
            SheetWords::Lawful(sheet) => sheet.words().len() == sheet_size(groups),
        }
    }
}
