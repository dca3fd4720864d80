//! Decoding in place, group by group, and with a chosen sentinel.
#![tactic(auto)]

pub mod place;
pub mod sentinel;
mod walk;
