//! The marks of a group's days, and the rules that make a stage of them.
#![tactic(auto)]

pub mod any_rule;
pub mod days;
pub mod marks;
pub mod rolling;
pub mod rule;
pub mod run;
pub mod theorems;
