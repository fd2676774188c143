//! The phases of a day.

/// A day goes through three phases: ahead, near and after. Its cut-off is where the last begins.
#[derive(Clone, Copy)]
pub enum Phase {
    Ahead,
    Near,
    After,
}
