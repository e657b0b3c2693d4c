// Literals put on a map: a pin, or the compute lists, which stand in the table's last row.
ghost use Rattle.std.specs.Prelude.{[], ◌∷◌, map};
ghost use Rattle.rules.specs.Rule.{Within};
ghost use Rattle.rules.specs.Map.{signed};
ghost use Rattle.rules.specs.Forcing.{computed};
ghost use Rattle.rules.specs.Inner.Bytes.{MapBytes};
ghost use Rattle.table.specs.Inner.Words.{seg_atoms, Seg};
ghost use Rattle.table.specs.Inner.Rows.{table_sheet};
ghost use Rattle.task.specs.Inner.Hold.{Takes};

use table::{Table, TableRow};
use weigh::{Clash, put, side_for};

// One atom of n, put in or out.
pub fn hold_atom(n: u32, atom: u32, inside: bool, m: &mut [u8]) -> Result<(), Clash>
    requires map { MapBytes n m.old }
    requires atom { Within n atom }
    ensures { Takes n m.old (signed inside atom ∷ []) m.new result }
{
    put(m, n, atom, side_for(inside))?;
    Ok(())
}

// The atoms of the pairs from one place to before another.
fn hold_pairs(row: &TableRow, from: u32, to: u32, inside: bool, m: &mut [u8]) -> Result<(), Clash>
    requires run { Seg row.now.code.now row.now.atoms from to }
    requires map { MapBytes row.now.atoms m.old }
    ensures { Takes row.now.atoms m.old (map (signed inside) (seg_atoms row.now.code.now from to)) m.new result }
{
    for j in from..to {
        hold_atom(row.atoms, row.atom(j), inside, m)?;
    }
    Ok(())
}

// Both compute lists.
pub fn hold_lists(t: &Table, m: &mut [u8]) -> Result<(), Clash>
    requires { MapBytes t.now.atoms m.old }
    ensures { Takes t.now.atoms m.old (computed (table_sheet t.now.code.now t.now.atoms t.now.rules)) m.new result }
{
    let lists = t.row(t.rules);
    let middle = lists.negatives();
    hold_pairs(&lists, lists.positives(), middle, true, m)?;
    hold_pairs(&lists, middle, lists.end(), false, m)
}
