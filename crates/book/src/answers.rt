//! What calls answer.

/// The answer to an accepted message: how many quarter hours have a stated open position beyond the
/// phase's limit, and the first of them, from 1.
#[derive(Clone, Copy)]
pub struct Submitted {
    pub beyond: u16,
    pub first: Option<u16>,
}

/// A group's mark and stage on a day.
#[derive(Clone, Copy)]
pub struct Standing {
    pub mark: bool,
    pub stage: u16,
}

/// A group's penalties up to the last cut-off and its balance up to the last close, in cents.
#[derive(Clone, Copy)]
pub struct Total {
    pub penalties: u64,
    pub balance: i64,
}
