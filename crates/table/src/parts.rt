// "Read a rule by its number: its kind, heads, need, body and weights": the parts of a row, by the parts' numbers.
ghost use Rattle.std.specs.Prelude.{◌-◌, ◌≡◌};
ghost use Rattle.rules.specs.Rule.{part_of};
ghost use Rattle.table.specs.Inner.Words.{place_of};
ghost use Rattle.table.specs.Inner.Rows.{kind_at, row_rule};

use super::{atom_at, end_at, heads_at, need_at, negatives_at, positives_at, weight_at, word};
use rules::Kind;

// Row i's kind.
pub fn kind_at(code: &[u32], i: u32) -> Kind
    ensures { result ≡ kind_at code.now i }
{
    Kind::of(word(code, super::ROW * (i as usize)) as usize)
}

// How many pairs there are from one place to before another.
fn count(from: u32, to: u32) -> usize
    ensures { result ≡ to - from }
{
    to.saturating_sub(from) as usize
}

// The k-th place from one to before another.
fn place(from: u32, to: u32, k: usize) -> Option<u32>
    ensures { result ≡ place_of from to k }
{
    if k < count(from, to) {
        Some(from + (k as u32))
    } else {
        None
    }
}

// The part of row i by its number, as include/archive.h numbers the parts: the C interface, so it stays a number.
pub fn part(code: &[u32], i: u32, part: usize, k: usize) -> Option<usize>
    ensures { result ≡ part_of (row_rule code.now i) part k }
{
    let heads = heads_at(code, i);
    let positives = positives_at(code, i);
    let negatives = negatives_at(code, i);
    let end = end_at(code, i);
    match part {
        0 => Some(kind_at(code, i).number()),
        1 => Some(need_at(code, i) as usize),
        2 => Some(count(heads, positives)),
        3 => place(heads, positives, k).map(|j| atom_at(code, j) as usize),
        4 => Some(count(positives, negatives)),
        5 => place(positives, negatives, k).map(|j| atom_at(code, j) as usize),
        6 => place(positives, negatives, k).map(|j| weight_at(code, j) as usize),
        7 => Some(count(negatives, end)),
        8 => place(negatives, end, k).map(|j| atom_at(code, j) as usize),
        9 => place(negatives, end, k).map(|j| weight_at(code, j) as usize),
        _ => None,
    }
}
