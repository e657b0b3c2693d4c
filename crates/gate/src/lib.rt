// What stops a call before its work: the refusals of a sheet, of a lent map, of a pin and of a rule's number, in their order. Every function takes
// any bytes and any numbers.
#![tactic(auto)]

pub mod gates;
pub mod scan;
pub mod steps;

pub use gates::{margin_gate, part_gate, pin_gate, pin_or_stay_gate, room_gate, test_gate};
use rules::Atom;
pub use scan::is_contradiction;
pub use steps::{model_bytes, room};

// A pin that was let through: an atom, put in or out.
#[derive(Clone, Copy, Debug, PartialEq, Eq)]
pub struct Pin {
    pub atom: Atom,
    pub inside: bool,
}
