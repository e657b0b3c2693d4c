// Bytes to rules: what a sheet says, or why it is refused. Every reader takes any bytes and any place.
#![tactic(auto)]

ghost use Rattle.std.specs.Prelude.{◌≡◌};
ghost use Rattle.sheet.specs.Body.{need_for};
ghost use Rattle.sheet.specs.Inner.Unweighed.{is_plain, unweighed};
ghost use Rattle.sheet.specs.Inner.Sums.{weighed};

pub mod body;
pub mod rule;
pub mod sheet;

use numbers::Span;
pub use rule::read_rule;
use rules::Atom;
pub use sheet::{BYTES_MOST, read_sheet};

// The four kinds as they stand on a sheet, each with its own head part: a head, a head and a bound, or a list of heads: the form that
// the scope paper names for this place.
#[derive(Clone, Copy, Debug, PartialEq, Eq)]
pub enum SheetKind {
    Basic(Atom),
    Constraint(Atom, usize),
    Choice(Span),
    Weight(Atom, usize),
}

impl SheetKind {
    // The need of a rule of this kind, over a body of this length.
    fn need(self, length: usize) -> usize
        ensures { result ≡ need_for self length }
    {
        match self {
            SheetKind::Basic(_) | SheetKind::Choice(_) => length,
            SheetKind::Constraint(_, bound) | SheetKind::Weight(_, bound) => bound,
        }
    }

    // Is this a kind without weights?
    fn is_plain(self) -> bool
        ensures { result ≡ is_plain self }
    {
        !matches!(self, SheetKind::Weight(_, _))
    }
}

// The literals of one sign of a body: the list of their atoms, and the weights, where weights are written.
#[derive(Clone, Copy, Debug, PartialEq, Eq)]
pub struct Literals {
    pub atoms: Span,
    pub weights: Span,
}

impl Literals {
    // The literals of a list with no weights, at the place where they would begin.
    fn unweighed(atoms: Span, at: usize) -> Literals
        ensures { result ≡ unweighed atoms at }
    {
        Literals {
            atoms,
            weights: Span::new(0, at, at),
        }
    }

    // The literals of a list, each with its weight.
    fn weighed(atoms: Span, weights: Span) -> Literals
        ensures { result ≡ weighed atoms weights }
    {
        Literals {
            atoms,
            weights: Span::new(atoms.value, weights.first, weights.next),
        }
    }
}

// The head part of a rule: its kind with it, the place after the heads, where the bound is if it has one, and the place of the body.
#[derive(Clone, Copy, Debug, PartialEq, Eq)]
pub(crate) struct HeadPart {
    kind: SheetKind,
    bound: usize,
    next: usize,
}

// A rule as it stands on a sheet, and the place after it.
#[derive(Clone, Copy, Debug, PartialEq, Eq)]
pub struct SheetRule {
    pub kind: SheetKind,
    pub need: usize,
    pub positive: Literals,
    pub negated: Literals,
    pub next: usize,
}

// An accepted sheet: its atom count, its rules (their count, and the place of the first), its compute-in and its compute-out list.
#[derive(Clone, Copy, Debug, PartialEq, Eq)]
pub struct Outline {
    pub atoms: usize,
    pub rules: Span,
    pub ins: Span,
    pub outs: Span,
}
