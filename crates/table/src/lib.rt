// A table: the rules of a sheet as one list of words, since there is no heap and no sheet says beforehand how many literals it has. A word
// past the end is 0; of the free functions only `atom_there` and `weight_there` ask anything of the words, `Table` and `TableRow` carry what is
// known of theirs. A word is a u32 and an index a usize: the change is `as`, since std has no From for it.
#![tactic(auto)]

pub mod laid;
pub mod parts;

ghost use Rattle.std.specs.Prelude.{◌≤◌, ◌≡◌};
ghost use Rattle.rules.specs.Rule.{chooses};
ghost use Rattle.table.specs.Inner.Words.{word_at, pair_atom, pair_weight};
ghost use Rattle.table.specs.Inner.Rows.{kind_at, need_at, heads_at, positives_at, negatives_at, end_at};

pub use laid::{Table, TableRow};
pub use parts::{kind_at, part};
use rules::Kind;

// How many words a row and a pair have.
pub const ROW: usize = 5;

pub const PAIR: usize = 2;

#[tactic(auto, unfolding(crate::specs::Inner::Words::word_at))]
pub fn word(code: &[u32], i: usize) -> u32
    ensures { result ≡ word_at code.now i }
{
    code.get(i).copied().unwrap_or(0)
}

// What stands in each column of a pair and of a row has a function and a definition of its own: one function over a column's number would say
// less. The atom of pair j, and the weight of its literal.
#[tactic(auto, unfolding(crate::specs::Inner::Words::pair_width, crate::specs::Inner::Words::pair_atom))]
pub fn atom_at(code: &[u32], j: u32) -> u32
    ensures { result ≡ pair_atom code.now j }
{
    word(code, PAIR * (j as usize) + 1)
}

#[tactic(auto, unfolding(crate::specs::Inner::Words::pair_width, crate::specs::Inner::Words::pair_weight))]
pub fn weight_at(code: &[u32], j: u32) -> u32
    ensures { result ≡ pair_weight code.now j }
{
    word(code, PAIR * (j as usize))
}

// The same of a pair that has an atom: an atom is never 0, so its word is there, and the weight's before it; no test is needed.
pub fn atom_there(code: &[u32], j: u32) -> u32
    requires { 1 ≤ pair_atom code.now j }
    ensures { result ≡ pair_atom code.now j }
{
    code[PAIR * (j as usize) + 1]
}

pub fn weight_there(code: &[u32], j: u32) -> u32
    requires { 1 ≤ pair_atom code.now j }
    ensures { result ≡ pair_weight code.now j }
{
    code[PAIR * (j as usize)]
}

// Has rule i a list of heads, of which it may give any?
pub fn is_choice(code: &[u32], i: u32) -> bool
    ensures { result ≡ chooses (kind_at code.now i) }
{
    kind_at(code, i) == Kind::Choice
}

#[tactic(auto, unfolding(crate::specs::Inner::Words::row_width, crate::specs::Inner::Rows::need_at))]
pub fn need_at(code: &[u32], i: u32) -> u32
    ensures { result ≡ need_at code.now i }
{
    word(code, ROW * (i as usize) + 1)
}

// Where the heads of rule i begin; the positive literals, which end them; and the negated literals, which end those.
#[tactic(auto, unfolding(crate::specs::Inner::Words::row_width, crate::specs::Inner::Rows::heads_at))]
pub fn heads_at(code: &[u32], i: u32) -> u32
    ensures { result ≡ heads_at code.now i }
{
    word(code, ROW * (i as usize) + 2)
}

#[tactic(auto, unfolding(crate::specs::Inner::Words::row_width, crate::specs::Inner::Rows::positives_at))]
pub fn positives_at(code: &[u32], i: u32) -> u32
    ensures { result ≡ positives_at code.now i }
{
    word(code, ROW * (i as usize) + 3)
}

#[tactic(auto, unfolding(crate::specs::Inner::Words::row_width, crate::specs::Inner::Rows::negatives_at))]
pub fn negatives_at(code: &[u32], i: u32) -> u32
    ensures { result ≡ negatives_at code.now i }
{
    word(code, ROW * (i as usize) + 4)
}

// Where rule i ends: the next row's heads begin there.
#[tactic(auto, unfolding(crate::specs::Inner::Words::row_width, crate::specs::Inner::Rows::heads_at))]
pub fn end_at(code: &[u32], i: u32) -> u32
    ensures { result ≡ end_at code.now i }
{
    word(code, ROW * (i as usize + 1) + 2)
}
