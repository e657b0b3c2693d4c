// Giving the undecided literals of a body that weigh at least so much one truth.
ghost use Rattle.std.specs.Prelude.{◌≡◌};
ghost use Rattle.rules.specs.Map.{want};
ghost use Rattle.rules.specs.Inner.Bytes.{MapBytes};
ghost use Rattle.weigh.specs.Inner.Press.{PairAsks, RunAsks, PressesPair, Presses, PressesBody};

use super::step::put;
use super::{Clash, IN, OPEN, OUT, side_of};
use table::TableRow;

// Put the atom of pair j on a side, if it is undecided and the pair weighs at least so much.
fn press_pair(row: &TableRow, j: u32, least: u32, v: u8, m: &mut [u8]) -> Result<bool, Clash>
    requires { PairAsks row.now.code.now row.now.atoms j v m.old }
    ensures { PressesPair row.now.code.now row.now.atoms j least v m.old m.new result }
{
    let weight = row.weight(j);
    if weight < least {
        return Ok(false);
    }
    let a = row.atom(j);
    let x = side_of(m, row.atoms, a);
    let is_decided = x != OPEN;
    if is_decided {
        return Ok(false);
    }
    put(m, row.atoms, a, v)
}

// The same for every pair from one place to before another.
fn press_run(
    row: &TableRow,
    from: u32,
    to: u32,
    least: u32,
    v: u8,
    m: &mut [u8],
) -> Result<bool, Clash>
    requires { RunAsks row.now.code.now row.now.atoms from to v m.old }
    ensures { Presses row.now.code.now row.now.atoms from to least v m.old to m.new result }
{
    let mut grew = false;
    for j in from..to {
        grew |= press_pair(row, j, least, v, m)?;
    }
    Ok(grew)
}

// The side on which an atom is true, or false: a literal's sign is a bool in code and definitions, a side a byte.
pub fn side_for(truth: bool) -> u8
    ensures { result ≡ want truth }
{
    if truth { IN } else { OUT }
}

// Give every undecided literal of a rule that weighs at least so much this truth.
pub fn press_body(row: &TableRow, least: u32, truth: bool, m: &mut [u8]) -> Result<bool, Clash>
    requires { MapBytes row.now.atoms m.old }
    ensures { PressesBody row.now.code.now row.now.atoms row.now.at least truth m.old m.new result }
{
    let middle = row.negatives();
    let first = press_run(row, row.positives(), middle, least, side_for(truth), m)?;
    let second = press_run(row, middle, row.end(), least, side_for(!truth), m)?;
    Ok(first | second)
}
