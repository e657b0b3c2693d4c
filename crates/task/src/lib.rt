// The work of the calls on the table of a sheet: the smallest closed map that answers a question, and the first model.
#![tactic(auto)]

pub mod bytes;
pub mod closed;
pub mod hold;

pub use bytes::copy;
pub use closed::{ClosedMap, first_model, held, opened, pinned};
