// Rules are read one after another from the lent sheet, by a reader that holds a reference to the sheet and a place.
// The functions over a reader are thin: each takes it apart and leaves the work to a function of `steps`.
#![tactic(auto)]

ghost use Rattle.std.specs.Prelude.{◌≡◌};
ghost use Rattle.reader.specs.declared.Stop.TheVariants.{Refused};
ghost use Rattle.reader.specs.Reader.{start_of, next_of, moved_to, moved_on, is_end, first_step};

pub mod steps;

use numbers::Refusal;
use sheet::SheetRule;
pub use steps::step_at;
use steps::{first_place, past_last, place_after};

// The rules that are left on a sheet of so many atoms: how many, and where the first of them stands.
#[derive(Clone, Copy, Debug, PartialEq, Eq)]
pub struct Rest {
    pub atoms: usize,
    pub left: usize,
    pub at: usize,
}

// What a place has in the stead of rules: why its sheet is refused. A place is a value that may come in, so it may also be one that no reader
// made, of any number: that is handed up as it came.
#[derive(Clone, Copy, Debug, PartialEq, Eq)]
pub enum Stop {
    Refused(Refusal),
    Given { number: usize, place: usize },
}

impl From<Refusal> for Stop {
    ghost from_gives = { λ why stop. stop ≡ Refused why };

    fn from(why: Refusal) -> Stop {
        Stop::Refused(why)
    }
}

// Where a reader stands: before the rules that are left, or at the refusal of its sheet.
pub type Place = Result<Rest, Stop>;

// A rule that was read, and the place after it: as a value that may come in, any place.
#[derive(Clone, Copy, Debug, PartialEq, Eq)]
pub struct Step {
    pub rule: SheetRule,
    pub place: Place,
}

// What one step finds: a rule and the place after it, None at the end of the rules, or a refusal.
pub type NextRule = Result<Option<Step>, Stop>;

#[derive(Clone, Copy)]
pub struct Reader<'a> {
    pub sheet: &'a [u8],
    pub place: Place,
}

// A reader before the first rule; of a refused sheet, one at the refusal.
pub fn start<'a>(sheet: &'a [u8]) -> Reader<'a>
    ensures { result ≡ start_of sheet.entry }
{
    Reader {
        sheet,
        place: first_place(sheet),
    }
}

// The rule at the reader's place and the place after it, or the end, or the refusal.
pub fn next<'a>(r: Reader<'a>) -> NextRule
    ensures { result ≡ next_of r.entry }
{
    step_at(r.sheet, r.place)
}

// The reader at another place of its sheet: after a rule, at the place that came with it.
pub fn moved<'a>(r: Reader<'a>, place: Place) -> Reader<'a>
    ensures { result ≡ moved_to r.entry place }
{
    Reader {
        sheet: r.sheet,
        place,
    }
}

// The next step of a lent reader, which moves on past the rule that was read.
pub fn advance<'s, 'a>(r: &'s mut Reader<'a>) -> NextRule
    ensures step { result ≡ next_of r.old }
    ensures after { r.new ≡ moved_on r.old }
{
    let place = r.place;
    let step = step_at(r.sheet, place);
    r.place = place_after(step, place);
    step
}

// Whether no rule is left.
pub fn at_end<'a>(r: Reader<'a>) -> bool
    ensures { result ≡ is_end r.entry }
{
    past_last(r.place)
}

// The first step on a sheet. Its caller has no reader, and goes on by `step_at` at the place that came with the rule.
pub fn first_step(s: &[u8]) -> NextRule
    ensures { result ≡ first_step s.now }
{
    next(start(s))
}
