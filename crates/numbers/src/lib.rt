// The numbers and the lists of a sheet: what its bytes say at a place, or why they are refused. Every reader takes any bytes and any
// place, so bytes, atom count and place stay parameters: a struct of them would hold no fact, and its methods be no plainer.
#![tactic(auto)]

ghost use Rattle.std.specs.Prelude.{◌≡◌};
ghost use Rattle.numbers.specs.Answer.{span};

pub mod lists;
pub mod number;
pub mod reason;
pub mod short;

pub use lists::{read_atom, read_atoms, read_list};
pub use number::{read_number, read_within, take_number};
pub use reason::Reason;
pub use short::{SHORT_MOST, past_bytes};

// Why a sheet is refused: the reason, and its place. The place stands first, so that in a Result it shares its word with a value.
#[derive(Clone, Copy, Debug, PartialEq, Eq)]
pub struct Refusal {
    pub place: usize,
    pub reason: Reason,
}

// What was read: its value, its first place, and the place after it. Of a list the value is its count, and `first` is the place of
// its first atom; of numbers that are added up the value is their sum.
#[derive(Clone, Copy, Debug, PartialEq, Eq)]
pub struct Span {
    pub value: usize,
    pub first: usize,
    pub next: usize,
}

impl Span {
    pub fn new(value: usize, first: usize, next: usize) -> Span
        ensures { result ≡ span value first next }
    {
        Span { value, first, next }
    }
}
