// Which rules stand in a table already: a row that was written last is found again among those before it, or kept.
#![tactic(auto)]

pub mod marks;
pub mod same;
pub mod slots;

pub use marks::{carried, mixed};
pub use slots::Kept;

// How many slots rows are entered in.
pub const SLOTS: usize = 8_192;
