// Closing a map: the forcing rules, one pass after another, until none adds anything.
ghost use Rattle.std.specs.Prelude.{◌≤◌, ◌≡◌, ◌==◌, count_by, length, position};
ghost use Rattle.rules.specs.Forcing.{Closed};
ghost use Rattle.table.specs.Inner.Rows.{table_rules};
ghost use Rattle.rules.specs.Inner.Bytes.{Room, MapBytes};
ghost use Rattle.rules.specs.Map.{undecided};
ghost use Rattle.forcing.specs.Inner.Rounds.{FirstWith, LowestAt, Forcing, BackedAll, FoundedAll, ClosesMap};

use super::ground::{drop_all, founded};
use super::heads::settle_all;
use super::support::{back_all, count_all};
use rules::Atom;
use table::Table;
use weigh::{Clash, IN, OPEN};

// How many bytes are of an undecided atom.
fn zeros(bytes: &[u8]) -> usize
    ensures few { result ≤ length bytes.now }
    ensures counted { result ≡ count_by (λ x. x == 0) bytes.now }
{
    bytes.iter().filter(|x| **x == OPEN).count()
}

// How many of the n atoms are undecided.
pub fn count_undecided(m: &[u8], n: u32) -> u32
    requires { Room n m.now }
    ensures { result ≡ undecided n m.now }
{
    zeros(&m[..n as usize]) as u32
}

// The index of the first byte that is v.
fn first_of(bytes: &[u8], v: u8) -> Option<usize>
    ensures { result ≡ position (λ x. x == v) bytes.now }
{
    bytes.iter().position(|x| *x == v)
}

// The index of the first of n bytes that is v.
fn first_with(m: &[u8], n: u32, v: u8) -> Option<usize>
    requires { Room n m.now }
    ensures { FirstWith v n m.now result }
{
    first_of(&m[..n as usize], v)
}

// The index of the lowest undecided atom.
pub fn lowest(m: &[u8], n: u32) -> Option<usize>
    requires { Room n m.now }
    ensures { LowestAt n m.now result }
{
    first_with(m, n, OPEN)
}

// Forcing rule 2 at every rule: nothing where no atom is in, every atom is decided, or no atom has one rule.
fn back_round(t: &Table, m: &mut [u8]) -> Result<bool, Clash>
    requires { MapBytes t.now.atoms m.old }
    ensures { Forcing t.now.code.now t.now.atoms t.now.rules (BackedAll t.now.code.now t.now.rules) m.old m.new result }
{
    if first_with(m, t.atoms, IN).is_none() {
        return Ok(false);
    }
    let first_open = lowest(m, t.atoms);
    // by ==, so that edit rule_two_left_out exchanges the value alone
    let is_whole = first_open == None;
    if is_whole {
        return Ok(false);
    }
    // for the most atoms, since there is no heap
    let mut counts = [0u8; Atom::LAST];
    count_all(t, m, &mut counts);
    if first_with(&counts, t.atoms, 1).is_none() {
        return Ok(false);
    }
    back_all(t, &counts, m)
}

// Forcing rule 4 at every atom.
fn drop_round(t: &Table, m: &mut [u8]) -> Result<bool, Clash>
    requires { MapBytes t.now.atoms m.old }
    ensures { Forcing t.now.code.now t.now.atoms t.now.rules (FoundedAll t.now.code.now t.now.atoms t.now.rules) m.old m.new result }
{
    // for the most atoms, since there is no heap
    let mut u = [0u8; Atom::LAST];
    founded(t, m, &mut u);
    drop_all(t.atoms, &u, m)
}

// The four forcing rules, each only where those before it add nothing: rule 2 most often answers a guess, rule 4 decides many atoms
// at once, and rules 1 and 3 one after another.
fn round(t: &Table, down: bool, m: &mut [u8]) -> Result<bool, Clash>
    requires { MapBytes t.now.atoms m.old }
    ensures { Forcing t.now.code.now t.now.atoms t.now.rules (Closed (table_rules t.now.code.now t.now.rules) t.now.atoms) m.old m.new result }
{
    Ok(back_round(t, m)? || drop_round(t, m)? || settle_all(t, down, m)?)
}

// The smallest closed map that holds m, in its place, with the number of its undecided atoms; where no closed map holds m, the n bytes
// are of no use.
pub fn close(t: &Table, m: &mut [u8]) -> Result<u32, Clash>
    requires { MapBytes t.now.atoms m.old }
    ensures { ClosesMap t.now.code.now t.now.atoms t.now.rules m.old m.new result }
{
    let mut down = false;
    while round(t, down, m)? {
        down = !down;
    }
    Ok(count_undecided(m, t.atoms))
}
