// The line that answers a sheet.
ghost use Rattle.std.specs.Prelude.{◌≡◌};
ghost use Rattle.solve.specs.Answer.{atoms_in, Prints};

use desk::{Solved, solve};
use rules::Atom;
use sheet::read_sheet;
use text::{Line, model_line, none_line, refused_line};

// How many atoms a sheet has; none where it is refused.
#[tactic(auto, unfolding(crate::specs::Answer::atoms_in, numbers::specs::Answer::read_then))]
fn atoms(sheet: &[u8]) -> usize
    ensures { result ≡ atoms_in sheet.now }
{
    read_sheet(sheet).map_or(0, |outline| outline.atoms)
}

// The line of the sheet's first model, or of why there is none.
pub(crate) fn answer(sheet: &[u8]) -> Line
    ensures { Prints sheet.now result }
{
    let mut map = [0u8; Atom::LAST];
    match solve(sheet, &mut map) {
        Ok(Solved::Model) => model_line(&map, atoms(sheet)),
        Ok(Solved::NoModel) => none_line(),
        Err(why) => refused_line(why.reason.number(), why.place),
    }
}
