// The numbers of a sheet. What the rules mean is in specs/, and its laws are in proofs/.
#![tactic(auto)]

ghost use Rattle.std.specs.Prelude.{◌≡◌};
ghost use Rattle.rules.specs.Number.{checked_atom, checked_rule};

pub mod kind;

pub use kind::Kind;

// Two types, each with its own constants and checked function, as the scope paper names the form for this place: "An atom number and a rule
// number are different kinds of number and must not be mixed."
// An atom of a sheet, 1 to the sheet's atom count. Only `checked` makes one.
#[derive(Clone, Copy, Debug, PartialEq, Eq)]
pub struct Atom {
    number: usize,
}

impl Atom {
    pub const FIRST: usize = 1;

    pub const LAST: usize = 512;

    // The atom of this number, where the sheet has n atoms and this is one of them.
    #[tactic(auto, unfolding(crate::specs::Number::checked_atom, crate::specs::Sum::pick))]
    pub fn checked(number: usize, n: usize) -> Option<Atom>
        ensures { result ≡ checked_atom n number }
    {
        if number < Atom::FIRST {
            return None;
        }
        if n < number {
            return None;
        }
        Some(Atom { number })
    }

    pub fn number(self) -> usize
        ensures { result ≡ self.number }
    {
        self.number
    }
}

// A rule of a sheet by its place, 1 to the sheet's rule count. Only `checked` makes one.
#[derive(Clone, Copy, Debug, PartialEq, Eq)]
pub struct RuleNo {
    number: usize,
}

impl RuleNo {
    pub const FIRST: usize = 1;

    pub const LAST: usize = 2048;

    // The rule of this number, where the sheet has count rules and this is one of them.
    #[tactic(auto, unfolding(crate::specs::Number::checked_rule, crate::specs::Sum::pick))]
    pub fn checked(number: usize, count: usize) -> Option<RuleNo>
        ensures { result ≡ checked_rule count number }
    {
        if number < RuleNo::FIRST {
            return None;
        }
        if count < number {
            return None;
        }
        Some(RuleNo { number })
    }

    pub fn number(self) -> usize
        ensures { result ≡ self.number }
    {
        self.number
    }
}
