//! The decoder: byte by byte, piece by piece, and in one call.
#![tactic(auto)]

pub mod decode;
mod fast;
pub mod state;
pub mod stream;
