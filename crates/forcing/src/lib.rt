// Closing a map: the four forcing rules at every rule of a table, and the smallest closed map.
#![tactic(auto)]

pub mod ground;
pub mod heads;
mod pass;
pub mod rounds;
pub mod support;

pub use rounds::{close, lowest};
