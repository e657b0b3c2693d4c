// Forcing rule 4: the atoms that the rules can still found, and those that they cannot.
ghost use Rattle.std.specs.Prelude.{◌+◌};
ghost use Rattle.rules.specs.Rule.{Within};
ghost use Rattle.rules.specs.Map.{side};
ghost use Rattle.table.specs.Inner.Words.{pair_atom, Pair};
ghost use Rattle.table.specs.Inner.Rows.{row_rule, positives_at};
ghost use Rattle.rules.specs.Inner.Bytes.{Room, MapBytes};
ghost use Rattle.forcing.specs.Inner.Ground.{PutsUnless, Lacks, GroundsHeads, GroundsRule, GroundsAll, Blank, ListsFounded, Drops, Misses};

use super::pass::place;
use table::{Table, TableRow};
use weigh::{Clash, IN, OUT, Seen, put, side_of, weigh_rule};

// Put atom a on a side in w, unless it has the given side in m. A side is a byte of a map, by name.
fn put_unless(n: u32, m: &[u8], a: u32, given: u8, v: u8, w: &mut [u8]) -> Result<bool, Clash>
    requires within { Within n a }
    requires map { MapBytes n m.now }
    requires space { MapBytes n w.old }
    ensures { PutsUnless n m.now a given v w.old w.new result }
{
    if side_of(m, n, a) == given {
        return Ok(false);
    }
    put(w, n, a, v)
}

// Put every head of a rule that is not out in u.
fn ground_heads(row: &TableRow, m: &[u8], u: &mut [u8]) -> Result<bool, Clash>
    requires map { MapBytes row.now.atoms m.now }
    requires space { MapBytes row.now.atoms u.old }
    ensures { GroundsHeads row.now.code.now row.now.atoms row.now.at m.now u.old (positives_at row.now.code.now row.now.at) u.new result }
{
    let mut grew = false;
    for j in row.heads()..row.positives() {
        grew |= put_unless(row.atoms, m, row.atom(j), OUT, IN, u)?;
    }
    Ok(grew)
}

// Is the atom of pair j not out, and not in u?
fn misses(row: &TableRow, j: u32, m: &[u8], u: &[u8]) -> bool
    requires pair { Pair row.now.code.now row.now.atoms j }
    requires map { Room row.now.atoms m.now }
    requires space { Room row.now.atoms u.now }
    ensures { Misses (side row.now.atoms m.now) (side row.now.atoms u.now) (pair_atom row.now.code.now j) result }
{
    let a = row.atom(j);
    side_of(m, row.atoms, a) != OUT && side_of(u, row.atoms, a) != IN
}

// May a head of a rule that is not out be missing in u? Tried with `any`: the test's contract is a relation, and the answer did not close.
fn lacks(row: &TableRow, m: &[u8], u: &[u8]) -> bool
    requires map { MapBytes row.now.atoms m.now }
    requires space { MapBytes row.now.atoms u.now }
    ensures { Lacks (row_rule row.now.code.now row.now.at) (side row.now.atoms m.now) (side row.now.atoms u.now) result }
{
    for j in row.heads()..row.positives() {
        if misses(row, j, m, u) {
            return true;
        }
    }
    false
}

// A rule: its heads are founded where what is founded meets its need.
fn ground(row: &TableRow, m: &[u8], u: &mut [u8]) -> Result<bool, Clash>
    requires map { MapBytes row.now.atoms m.now }
    requires space { MapBytes row.now.atoms u.old }
    ensures { GroundsRule row.now.code.now row.now.atoms row.now.at m.now u.old u.new result }
{
    if lacks(row, m, u) {
        let most = weigh_rule(row, u, Seen::On(IN), m, Seen::Off(IN));
        if most < row.need() {
            return Ok(false);
        }
        return ground_heads(row, m, u);
    }
    Ok(false)
}

// Every rule once, one after another, up or down.
fn ground_all(t: &Table, down: bool, m: &[u8], u: &mut [u8]) -> Result<bool, Clash>
    requires map { MapBytes t.now.atoms m.now }
    requires space { MapBytes t.now.atoms u.old }
    ensures { GroundsAll t.now.code.now t.now.atoms t.now.rules m.now u.old u.new result }
{
    let mut grew = false;
    for i in 0..t.rules {
        let row = t.row(place(t.rules, i, down));
        grew |= ground(&row, m, u)?;
    }
    Ok(grew)
}

// Put in u, blank at first, exactly the founded atoms.
pub fn founded(t: &Table, m: &[u8], u: &mut [u8])
    requires map { MapBytes t.now.atoms m.now }
    requires blank { Blank t.now.atoms u.old }
    ensures { ListsFounded t.now.code.now t.now.atoms t.now.rules m.now u.new }
{
    let mut down = false;
    while ground_all(t, down, m, u) == Ok(true) {
        down = !down;
    }
}

// Every atom that is not in u is out. Tried over `1..=n`: solving took 2 to 4 in 100 longer.
pub fn drop_all(n: u32, u: &[u8], m: &mut [u8]) -> Result<bool, Clash>
    requires founded { MapBytes n u.now }
    requires map { MapBytes n m.old }
    ensures { Drops n u.now m.old (n + 1) m.new result }
{
    let mut grew = false;
    for a in 0..n {
        grew |= put_unless(n, u, a + 1, IN, OUT, m)?;
    }
    Ok(grew)
}
