// The weight of a rule's body on a map: sure, reach and margin. What a step on a map promises, and the steps on one body.
#![tactic(auto)]

pub mod press;
pub mod step;

ghost use Rattle.std.specs.Prelude.{◌+◌, ◌≡◌};
ghost use Rattle.rules.specs.Sum.{counted};
ghost use Rattle.rules.specs.Stable.{gain, value};
ghost use Rattle.rules.specs.Map.{side, sure, reach, margin};
ghost use Rattle.table.specs.Inner.Words.{pair_atom, pair_weight, seg, Pair};
ghost use Rattle.table.specs.Inner.Rows.{row_rule};
ghost use Rattle.weigh.specs.Inner.Weigh.{meets, sees, Side, Weighs};
ghost use Rattle.rules.specs.Inner.Bytes.{Room};

pub use press::{press_body, side_for};
pub use step::put;
use table::TableRow;

// The sides of an atom: bytes, since a map is bytes that a call is lent ("A map has one byte for each atom").
pub const OPEN: u8 = 0;

pub const IN: u8 = 1;

pub const OUT: u8 = 2;

// No closed map holds the map. A step that finds none such says whether it added something.
#[derive(Clone, Copy, Debug, PartialEq, Eq)]
pub struct Clash;

// The atoms that are looked for: those on a side, or those that are not.
#[derive(Clone, Copy, Debug, PartialEq, Eq)]
pub enum Seen {
    On(u8),
    Off(u8),
}

impl Seen {
    fn meets(self, x: u8) -> bool
        ensures { result ≡ meets self x }
    {
        match self {
            Seen::On(given) => x == given,
            Seen::Off(given) => x != given,
        }
    }
}

// The side of atom a, one of n. Maps stay plain bytes with n beside them: a call is lent them so, and the search keeps them by value,
// as the scope paper says.
pub fn side_of(m: &[u8], n: u32, a: u32) -> u8
    requires { Side n a m.now }
    ensures { result ≡ side n m.now a }
{
    m[(a - 1) as usize]
}

// What the literal of pair j counts for: its weight where its atom is seen, else 0. A pair goes by its place, so that of a head no weight is read.
fn weigh_pair(row: &TableRow, j: u32, m: &[u8], seen: Seen) -> u32
    requires pair { Pair row.now.code.now row.now.atoms j }
    requires room { Room row.now.atoms m.now }
    ensures { result ≡ counted (sees seen (side row.now.atoms m.now) (pair_atom row.now.code.now j)) (pair_weight row.now.code.now j) }
{
    let x = side_of(m, row.atoms, table::atom_there(row.code, j));
    if seen.meets(x) {
        table::weight_there(row.code, j)
    } else {
        0
    }
}

// The weight of those literals from one place to before another whose atoms are seen.
fn weigh(row: &TableRow, from: u32, to: u32, m: &[u8], seen: Seen) -> u32
    requires { Weighs row.now.code.now row.now.atoms from to m.now }
    ensures { result ≡ gain (sees seen (side row.now.atoms m.now)) (seg row.now.code.now from to) }
{
    let mut sum: u32 = 0;
    for j in from..to {
        sum += weigh_pair(row, j, m, seen);
    }
    sum
}

// The weight of a rule's body: the positive literals whose atoms are seen on one map, and the negated literals whose atoms are seen
// on another.
pub fn weigh_rule(row: &TableRow, p: &[u8], seen: Seen, q: &[u8], also: Seen) -> u32
    requires first { Room row.now.atoms p.now }
    requires second { Room row.now.atoms q.now }
    ensures { result ≡ value (row_rule row.now.code.now row.now.at) (sees seen (side row.now.atoms p.now)) (sees also (side row.now.atoms q.now)) }
{
    let middle = row.negatives();
    weigh(row, row.positives(), middle, p, seen) + weigh(row, middle, row.end(), q, also)
}

// The weight of a rule's literals that are true.
pub fn sure(row: &TableRow, m: &[u8]) -> u32
    requires { Room row.now.atoms m.now }
    ensures { result ≡ sure (row_rule row.now.code.now row.now.at) (side row.now.atoms m.now) }
{
    weigh_rule(row, m, Seen::On(IN), m, Seen::On(OUT))
}

// The weight of a rule's literals that are not false.
pub fn reach(row: &TableRow, m: &[u8]) -> u32
    requires { Room row.now.atoms m.now }
    ensures { result ≡ reach (row_rule row.now.code.now row.now.at) (side row.now.atoms m.now) }
{
    weigh_rule(row, m, Seen::Off(OUT), m, Seen::Off(IN))
}

// Reach less need of a rule. Below zero the body can no longer hold.
pub fn margin(row: &TableRow, m: &[u8]) -> i64
    requires { Room row.now.atoms m.now }
    ensures { result ≡ margin (row_rule row.now.code.now row.now.at) (side row.now.atoms m.now) }
{
    i64::from(reach(row, m)) - i64::from(row.need())
}
