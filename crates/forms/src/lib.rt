//! The forms that reach the account as bytes, and the faults by which one is refused.
//!
//! A function that is given the number of a group, a row, a series or a quarter hour asks that it is
//! there, as an index is asked to be in range: a type for such a number would be no plainer.
#![tactic(auto)]

pub mod bounds;
pub mod bytes;
pub mod calendar;
pub mod checks;
pub mod closing;
mod closing_form;
pub mod fault;
pub mod group;
pub mod kind;
mod lawful;
mod opened;
pub mod opening;
mod opening_form;
pub mod rule_form;
pub mod slot;
pub mod terms;
mod up_to;
