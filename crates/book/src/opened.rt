//! A book that is open.
use crate::ledger::Ledger;

/// A rule and the ledger that is kept under it.
#[derive(Drop)]
pub struct Opened<R> {
    pub(crate) rule: R,
    pub(crate) ledger: Ledger,
}
