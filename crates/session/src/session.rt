//! What lasts from frame to frame.
use book::book::Book;
use book::lawful_sheet::LawfulSheet;
use book::result_row::ResultRow;
use stage::any_rule::AnyRule;

/// The most groups that the program `account` serves.
pub const ACCOUNT_GROUPS: u8 = 8;

/// The rule, the book, and what the session lends it: the sheet and the result rows.
#[derive(Drop)]
pub struct Session {
    pub(crate) rule: Option<AnyRule>,
    pub(crate) book: Book<AnyRule>,
    pub(crate) sheet: LawfulSheet,
    pub(crate) rows: Vec<ResultRow>,
}
