// The calls: check, part, open, pin, solve, test and margin, on any lent bytes.
#![tactic(auto)]

pub mod calls;
pub mod hand;
pub mod run;

pub use calls::{check, margin, open, part, pin, solve, test};

// "Check a sheet: accepted with n and the rule count": its atom count and its rule count.
#[derive(Clone, Copy, Debug, PartialEq, Eq)]
pub struct Counts {
    pub atoms: usize,
    pub rules: usize,
}

// The map is the first model, or there is none: two names, which say more than a bool.
#[derive(Clone, Copy, Debug, PartialEq, Eq)]
pub enum Solved {
    Model,
    NoModel,
}
