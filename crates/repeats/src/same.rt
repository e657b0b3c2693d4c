// Have two rows of a table the same rule?
ghost use Rattle.std.specs.Prelude.{◌≡◌, ◌+◌, ◌-◌, ◌≤◌};
ghost use Rattle.rules.specs.Limits.{number_most};
ghost use Rattle.rules.specs.Inner.Decides.{Decides};
ghost use Rattle.table.specs.Inner.Rows.{row_rule};
ghost use Rattle.repeats.specs.Inner.Same.{SameRuns, Filled};

use table::{atom_at, end_at, heads_at, kind_at, need_at, negatives_at, positives_at, weight_at};

// Are the pairs from one place to before another those from a third place on?
#[tactic(auto, unfolding(rules::specs::Limits::number_most))]
fn same_pairs(code: &[u32], from: u32, to: u32, other: u32) -> bool
    requires { other + (to - from) ≤ number_most }
    ensures { Decides result (SameRuns code.now from to other) }
{
    for j in from..to {
        let k = other + (j - from);
        if atom_at(code, j) != atom_at(code, k) || weight_at(code, j) != weight_at(code, k) {
            return false;
        }
    }
    true
}

// "Two rules are the same when kind, heads, need, body and weights are all equal." Kept as tests one after another: a struct of the parts
// with a derived == takes an eighth more instructions on a sheet of repeats.
pub fn same_rule(code: &[u32], i: u32, k: u32) -> bool
    requires one { Filled code.now i }
    requires other { Filled code.now k }
    ensures { Decides result (row_rule code.now i ≡ row_rule code.now k) }
{
    if kind_at(code, i) != kind_at(code, k) {
        return false;
    }
    if need_at(code, i) != need_at(code, k) {
        return false;
    }
    let from = heads_at(code, i);
    let other = heads_at(code, k);
    if positives_at(code, i) - from != positives_at(code, k) - other {
        return false;
    }
    if negatives_at(code, i) - from != negatives_at(code, k) - other {
        return false;
    }
    let to = end_at(code, i);
    if to - from != end_at(code, k) - other {
        return false;
    }
    same_pairs(code, from, to, other)
}
