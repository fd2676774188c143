//! A session: frames in, replies out.
#![tactic(auto)]

pub mod frame;
pub mod letter;
pub mod questions;
pub mod reply;
pub mod session;
pub mod step;
