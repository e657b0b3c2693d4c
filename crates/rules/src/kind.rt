// The four kinds of rules, each with the number by which a sheet writes it.
ghost use Rattle.std.specs.Prelude.{◌≡◌};
ghost use Rattle.rules.specs.Rule.{kind_number, kind_of, checked_kind};

#[derive(Clone, Copy, Debug, PartialEq, Eq)]
pub enum Kind {
    Basic = 1,
    Constraint = 2,
    Choice = 3,
    Weight = 5,
}

// The same numbers, as they stand on a sheet.
pub const BASIC: usize = Kind::Basic as usize;

pub const CONSTRAINT: usize = Kind::Constraint as usize;

pub const CHOICE: usize = Kind::Choice as usize;

pub const WEIGHT: usize = Kind::Weight as usize;

impl Kind {
    // The number by which a sheet writes the kind.
    pub fn number(self) -> usize
        ensures { result ≡ kind_number self }
    {
        self as usize
    }

    // The kind of a number that is a kind's; of any other, a weight rule's.
    #[tactic(auto, unfolding(crate::specs::Rule::kind_of, crate::specs::Rule::checked_kind, crate::specs::Sum::pick))]
    pub fn of(number: usize) -> Kind
        ensures { result ≡ kind_of number }
    {
        Kind::checked(number).unwrap_or(Kind::Weight)
    }

    // The kind of this number, where it is a kind's.
    #[tactic(auto, unfolding(crate::specs::Rule::checked_kind, crate::specs::Sum::pick))]
    pub fn checked(number: usize) -> Option<Kind>
        ensures { result ≡ checked_kind number }
    {
        match number {
            BASIC => Some(Kind::Basic),
            CONSTRAINT => Some(Kind::Constraint),
            CHOICE => Some(Kind::Choice),
            WEIGHT => Some(Kind::Weight),
            _ => None,
        }
    }
}
