// Lists of atoms and literals, written as pairs of words. A rule's mark goes on from list to list: where writing begins, it is that of what
// was written of the rule before.
ghost use Rattle.std.specs.Prelude.{◌+◌, ◌*◌, ◌≤◌, [], ◌∷◌, length};
ghost use Rattle.rules.specs.Rule.{ones, weighted};
ghost use Rattle.numbers.specs.Lists.{numbers_from};
ghost use Rattle.table.specs.Inner.Words.{pair_width};
ghost use Rattle.decode.specs.Inner.Taken.{numbers_past, list_taken, list_past};
ghost use Rattle.decode.specs.Inner.Pairs.{PairFits, PairsFit, PairsCopied, ListCopied, WeightsCopied};

use super::words::set_word;
use numbers::take_number;
use repeats::{carried, mixed};
use table::PAIR;

// The sheet and the table stay two parameters beside it: a struct of the two loans would be taken apart again by each function, which reads
// the one and writes the other.
//
// How far writing has come: the pair after what was written, and the place after what was taken from the sheet; and the mark with it.
#[derive(Clone, Copy, Debug, PartialEq, Eq)]
pub(crate) struct Reached {
    pub pair: usize,
    pub next: usize,
    pub mark: usize,
}

// One atom with its weight.
#[tactic(auto, using(crate::proofs::pairs::Laws::pair_put), unfolding(table::specs::Inner::Words::pair_width))]
pub(crate) fn write_pair(code: &mut [u32], j: usize, atom: usize, weight: usize)
    requires { PairFits code.old j atom weight }
    ensures { PairsCopied code.old j (weighted atom weight ∷ []) code.new (j + 1) }
{
    set_word(code, PAIR * j, weight);
    set_word(code, PAIR * j + 1, atom);
}

// So many atoms, each with weight 1.
fn copy_atoms(s: &[u8], count: usize, code: &mut [u32], from: Reached) -> Reached
    requires { PairsFit code.old from.pair (ones (numbers_from count s.now from.next)) }
    ensures { ListCopied code.old from.pair (numbers_from count s.now from.next) (numbers_past count s.now from.next) from.mark code.new result }
{
    let mut to = Reached {
        mark: carried(from.mark),
        ..from
    };
    for _ in 0..count {
        let atom = take_number(s, to.next);
        write_pair(code, to.pair, atom.value, 1);
        to = Reached {
            pair: to.pair + 1,
            next: atom.next,
            mark: mixed(to.mark, 0, atom.value),
        };
    }
    to
}

// The list that comes next, each atom with weight 1.
pub(crate) fn copy_list(s: &[u8], code: &mut [u32], from: Reached) -> Reached
    requires { PairsFit code.old from.pair (ones (list_taken s.now from.next)) }
    ensures { ListCopied code.old from.pair (list_taken s.now from.next) (list_past s.now from.next) from.mark code.new result }
{
    let count = take_number(s, from.next);
    copy_atoms(
        s,
        count.value,
        code,
        Reached {
            next: count.next,
            ..from
        },
    )
}

// The weights that come next, over those of the pairs before another.
#[tactic(auto, unfolding(table::specs::Inner::Words::pair_width))]
pub(crate) fn copy_weights(s: &[u8], code: &mut [u32], from: Reached, to: usize) -> Reached
    requires order { from.pair ≤ to }
    requires room { pair_width * to ≤ length code.old }
    ensures { WeightsCopied s.now from.next code.old from.pair to from.mark code.new result }
{
    let mut next = from.next;
    let mut mark = carried(from.mark);
    for j in from.pair..to {
        let weight = take_number(s, next);
        set_word(code, PAIR * j, weight.value);
        mark = mixed(mark, j - from.pair, weight.value);
        next = weight.next;
    }
    Reached {
        pair: to,
        next,
        mark,
    }
}
