// The text of the program's one line of output.
#![tactic(auto)]

ghost use Rattle.std.specs.Prelude.{min, ◌≡◌};
ghost use Rattle.rules.specs.Limits.{atoms_most};
ghost use Rattle.text.specs.Line.{model_line, none_line, refused_line, Spells};

use arrayvec::ArrayString;
use rules::Atom;

mod put;

use put::{is_in, put_spaced};

// Room for every atom a sheet can have, and for any two numbers.
pub const SIZE: usize = 4096;

// A line is a text of its own, which lies in place.
pub type Line = ArrayString<SIZE>;

// The line of a model: the atoms of 1 to n whose byte in the map is 1, atom a at index a - 1. A sheet has no more atoms than
// Atom::LAST, so a larger n counts as that; the map may have fewer bytes than n, so the index goes by n.
pub fn model_line(map: &[u8], n: usize) -> Line
    ensures { Spells result (model_line (min n atoms_most) map.now) }
{
    let mut names = Line::new();
    names.push_str("MODEL");
    for i in 0..n.min(Atom::LAST) {
        if is_in(map, i) {
            put_spaced(&mut names, i + 1);
        }
    }
    names.push('\n');
    names
}

// The line that says that there is no model.
#[tactic(auto, unfolding(crate::specs::Line::none_line))]
pub fn none_line() -> Line
    ensures { Spells result none_line }
{
    let mut word = Line::new();
    word.push_str("NONE");
    word.push('\n');
    word
}

// The line of a refusal: two plain numbers, of which nothing is asked, where a `Refusal` would let in only the sixteen reasons.
pub fn refused_line(number: usize, place: usize) -> Line
    ensures { Spells result (refused_line number place) }
{
    let mut line = Line::new();
    line.push_str("REFUSED");
    put_spaced(&mut line, number);
    put_spaced(&mut line, place);
    line.push('\n');
    line
}
