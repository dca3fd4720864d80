//! The encoder: `state` alone, `stream` on a lent buffer, and the calls of `oneshot`.
#![tactic(auto)]

mod fast;
pub mod oneshot;
pub mod state;
pub mod stream;
