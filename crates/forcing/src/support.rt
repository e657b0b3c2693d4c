// Forcing rule 2: an atom that is in and that one rule alone can still give.
ghost use Rattle.std.specs.Prelude.{ℕ, ◌+◌, ◌≡◌, ◌&&◌, eqb};
ghost use Rattle.rules.specs.Sum.{has};
ghost use Rattle.rules.specs.Rule.{Within};
ghost use Rattle.rules.specs.Map.{side, is};
ghost use Rattle.rules.specs.Forcing.{supports};
ghost use Rattle.table.specs.Inner.Words.{pair_atom, seg_atoms, Pair};
ghost use Rattle.table.specs.Inner.Rows.{heads_at, positives_at, row_rule, table_rules};
ghost use Rattle.rules.specs.Inner.Bytes.{Room, MapBytes};
ghost use Rattle.rules.specs.Inner.Decides.{Decides};
ghost use Rattle.forcing.specs.Inner.Support.{up_to_two, Counts, Adds, Scarce, ScarceHead, Backs, BacksAll};

use table::{Table, TableRow};
use weigh::{Clash, IN, press_body, reach, side_of};

// One more than a count: none, one, or more.
#[tactic(auto, unfolding(crate::specs::Inner::Support::up_to_two))]
fn one_more(count: u8) -> u8
    ensures { result ≡ up_to_two (count + 1) }
{
    count.saturating_add(1).min(2)
}

// One more for the atom of pair j, if it is in.
fn count_pair(row: &TableRow, j: u32, m: &[u8], counts: &mut [u8])
    requires pair { Pair row.now.code.now row.now.atoms j }
    requires map { Room row.now.atoms m.now }
    requires space { Room row.now.atoms counts.old }
    ensures { Adds row.now.atoms (λ a. is 1 (side row.now.atoms m.now) a && eqb a (pair_atom row.now.code.now j)) counts.old counts.new }
{
    let a = row.atom(j);
    let is_apart = side_of(m, row.atoms, a) != IN;
    if is_apart {
        return;
    }
    let old = side_of(counts, row.atoms, a);
    counts[(a - 1) as usize] = one_more(old);
}

// One more for each head of a rule that is in.
fn count_heads(row: &TableRow, m: &[u8], counts: &mut [u8])
    requires map { Room row.now.atoms m.now }
    requires space { Room row.now.atoms counts.old }
    ensures { Adds row.now.atoms (λ a. is 1 (side row.now.atoms m.now) a && has a (seg_atoms row.now.code.now (heads_at row.now.code.now row.now.at) (positives_at row.now.code.now row.now.at))) counts.old counts.new }
{
    for j in row.heads()..row.positives() {
        count_pair(row, j, m, counts);
    }
}

// Is the atom of pair j in, with a count from a least one up to 1?
fn is_scarce(row: &TableRow, j: u32, m: &[u8], counts: &[u8], least: u8) -> bool
    requires pair { Pair row.now.code.now row.now.atoms j }
    requires map { Room row.now.atoms m.now }
    requires space { Room row.now.atoms counts.now }
    ensures { Decides result (Scarce row.now.atoms (side row.now.atoms m.now) counts.now least (pair_atom row.now.code.now j)) }
{
    let a = row.atom(j);
    let x = side_of(m, row.atoms, a);
    if x != IN {
        return false;
    }
    let k = side_of(counts, row.atoms, a);
    if k < least {
        return false;
    }
    let is_many = 1 < k;
    !is_many
}

// Is a head of a rule so?
fn has_scarce(row: &TableRow, m: &[u8], counts: &[u8], least: u8) -> bool
    requires map { Room row.now.atoms m.now }
    requires space { Room row.now.atoms counts.now }
    ensures { Decides result (ScarceHead row.now.code.now row.now.atoms row.now.at (side row.now.atoms m.now) counts.now least) }
{
    for j in row.heads()..row.positives() {
        if is_scarce(row, j, m, counts, least) {
            return true;
        }
    }
    false
}

// One more for each head that is in and that a rule can still give; a rule whose heads that are in have two each is not weighed.
fn count_rule(row: &TableRow, m: &[u8], counts: &mut [u8])
    requires map { Room row.now.atoms m.now }
    requires space { Room row.now.atoms counts.old }
    ensures { Adds row.now.atoms (λ a. is 1 (side row.now.atoms m.now) a && supports a (side row.now.atoms m.now) (row_rule row.now.code.now row.now.at)) counts.old counts.new }
{
    if has_scarce(row, m, counts, 0) {
        if reach(row, m) < row.need() {
            return;
        }
        count_heads(row, m, counts);
    }
}

// For each atom that is in, whether none, one or more rules can still give it.
pub fn count_all(t: &Table, m: &[u8], counts: &mut [u8])
    requires map { Room t.now.atoms m.now }
    requires space { Room t.now.atoms counts.old }
    requires none { (a : ℕ) → Within t.now.atoms a → side t.now.atoms counts.old a ≡ 0 }
    ensures { Counts (table_rules t.now.code.now t.now.rules) t.now.atoms (side t.now.atoms m.now) counts.new }
{
    for i in 0..t.rules {
        count_rule(&t.row(i), m, counts);
    }
}

// A rule: where it is the one that can give a head that is in, the literals that its need cannot do without are made true. A head that
// came in on the way has no count, and is left for the next pass.
fn back(row: &TableRow, counts: &[u8], m: &mut [u8]) -> Result<bool, Clash>
    requires map { MapBytes row.now.atoms m.old }
    requires space { Room row.now.atoms counts.now }
    ensures { Backs row.now.code.now row.now.atoms row.now.at counts.now m.old m.new result }
{
    if has_scarce(row, m, counts, 1) {
        let need = row.need();
        let most = reach(row, m);
        if most < need {
            return Ok(false);
        }
        return press_body(row, most - need + 1, true, m);
    }
    Ok(false)
}

// Every rule, one after another, by the counts of the map as it stands at first.
pub fn back_all(t: &Table, counts: &[u8], m: &mut [u8]) -> Result<bool, Clash>
    requires space { Room t.now.atoms counts.now }
    requires map { MapBytes t.now.atoms m.old }
    requires counted { Counts (table_rules t.now.code.now t.now.rules) t.now.atoms (side t.now.atoms m.old) counts.now }
    ensures { BacksAll t.now.code.now t.now.atoms t.now.rules counts.now t.now.rules m.old m.new result }
{
    let mut grew = false;
    for i in 0..t.rules {
        grew |= back(&t.row(i), counts, m)?;
    }
    Ok(grew)
}
