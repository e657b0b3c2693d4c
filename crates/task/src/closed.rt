// The smallest closed maps that the calls ask for, and the first model.
ghost use Rattle.std.specs.Prelude.{◌≡◌, [], ◌∷◌};
ghost use Rattle.rules.specs.Rule.{Within};
ghost use Rattle.rules.specs.Stable.{Model};
ghost use Rattle.rules.specs.Map.{side, signed, Holding, Over};
ghost use Rattle.rules.specs.Forcing.{computed};
ghost use Rattle.rules.specs.Inner.Bytes.{MapBytes};
ghost use Rattle.table.specs.Inner.Rows.{table_sheet};
ghost use Rattle.search.specs.Inner.Search.{FirstIn};
ghost use Rattle.task.specs.Inner.Closed.{found_in, ClosedFor, Finishes};

use super::bytes::copy;
use super::hold::{hold_atom, hold_lists};
use forcing::close;
use gate::Pin;
use rules::Atom;
use search::choose;
use table::Table;
use weigh::Clash;

// Maps have room for the most atoms, since there is no heap. A closed map, and how many atoms it leaves undecided.
#[derive(Clone, Copy, Debug, PartialEq, Eq)]
pub struct ClosedMap {
    pub map: [u8; Atom::LAST],
    pub undecided: usize,
}

// The map that was closed in its place, where no clash was found.
fn found(map: [u8; Atom::LAST], closed: Result<u32, Clash>) -> Option<ClosedMap>
    ensures { result ≡ found_in map closed }
{
    let undecided = closed.ok()? as usize;
    Some(ClosedMap { map, undecided })
}

// The smallest closed map above m that holds the compute lists, in its place.
fn close_held(t: &Table, m: &mut [u8]) -> Result<u32, Clash>
    requires { MapBytes t.now.atoms m.old }
    ensures { Finishes (table_sheet t.now.code.now t.now.atoms t.now.rules) (Over (side t.now.atoms m.old) (computed (table_sheet t.now.code.now t.now.atoms t.now.rules))) m.old m.new result }
{
    hold_lists(t, m)?;
    close(t, m)
}

// The same of a pin.
fn close_pinned(t: &Table, pin: Pin, m: &mut [u8]) -> Result<u32, Clash>
    requires map { MapBytes t.now.atoms m.old }
    requires atom { Within t.now.atoms pin.atom.number }
    ensures { Finishes (table_sheet t.now.code.now t.now.atoms t.now.rules) (Over (side t.now.atoms m.old) (signed pin.inside pin.atom.number ∷ [])) m.old m.new result }
{
    hold_atom(t.atoms, pin.atom.number() as u32, pin.inside, m)?;
    close(t, m)
}

// The smallest closed map that holds the compute lists.
pub fn opened(t: &Table) -> Option<ClosedMap>
    ensures { ClosedFor (table_sheet t.now.code.now t.now.atoms t.now.rules) (Holding (computed (table_sheet t.now.code.now t.now.atoms t.now.rules))) result }
{
    let mut blank = [0u8; Atom::LAST];
    let closed = close_held(t, &mut blank);
    found(blank, closed)
}

// The smallest closed map above m that holds the compute lists.
pub fn held(t: &Table, m: &[u8]) -> Option<ClosedMap>
    requires { MapBytes t.now.atoms m.now }
    ensures { ClosedFor (table_sheet t.now.code.now t.now.atoms t.now.rules) (Over (side t.now.atoms m.now) (computed (table_sheet t.now.code.now t.now.atoms t.now.rules))) result }
{
    let mut above = [0u8; Atom::LAST];
    copy(m, t.atoms as usize, &mut above);
    let closed = close_held(t, &mut above);
    found(above, closed)
}

// The smallest closed map above m that holds a pin.
pub fn pinned(t: &Table, pin: Pin, m: &[u8]) -> Option<ClosedMap>
    requires map { MapBytes t.now.atoms m.now }
    requires atom { Within t.now.atoms pin.atom.number }
    ensures { ClosedFor (table_sheet t.now.code.now t.now.atoms t.now.rules) (Over (side t.now.atoms m.now) (signed pin.inside pin.atom.number ∷ [])) result }
{
    let mut map = [0u8; Atom::LAST];
    copy(m, t.atoms as usize, &mut map);
    let closed = close_pinned(t, pin, &mut map);
    found(map, closed)
}

// The first model that agrees with the compute lists: above the opened map.
pub fn first_model(t: &Table) -> Option<[u8; Atom::LAST]>
    ensures { FirstIn t.now.atoms (Model (table_sheet t.now.code.now t.now.atoms t.now.rules)) result }
{
    choose(t, opened(t)?.map)
}
