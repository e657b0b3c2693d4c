// Rules, each written as a row of words and the pairs of its heads and literals.
ghost use Rattle.std.specs.Prelude.{◌≤◌, ◌≡◌, []};
ghost use Rattle.rules.specs.Limits.{rules_most};
ghost use Rattle.rules.specs.Rule.{ones, kind_number};
ghost use Rattle.decode.specs.Inner.Taken.{heads_taken, heads_past, has_bound, weighs, bound_taken, need_taken};
ghost use Rattle.decode.specs.Inner.Pairs.{PairsFit, ListCopied};
ghost use Rattle.decode.specs.Inner.Rows.{BodyAsks, BodyPut, RestAsks, RestPut, RowAsks, RuleAsks, RulePut, TableRoom, with_row, with_end, first_pair};
ghost use Rattle.decode.specs.Inner.Decode.{Decodable, WritesRules};

use super::pairs::{Reached, copy_list, copy_weights, write_pair};
use super::words::set_word;
use numbers::{Span, take_number};
use repeats::{Kept, carried, mixed};
use rules::Kind;
use sheet::Outline;
use table::ROW;

// Where a body was written: the pair of its first negated literal, and how far writing has come.
#[derive(Clone, Copy, Debug, PartialEq, Eq)]
pub(crate) struct BodyEnds {
    pub negatives: usize,
    pub end: Reached,
}

// How many rows rules were written in, which of them has the rule at an index, and the pair and the place after them.
#[derive(Clone, Copy, Debug, PartialEq, Eq)]
pub(crate) struct Rows {
    pub count: usize,
    pub row: usize,
    pub pair: usize,
    pub next: usize,
}

// The heads of a rule of this kind: of a choice a list, of every other kind one atom, which is written apart from the lists, so that edit
// atoms_weigh_two is of these alone.
fn write_heads(s: &[u8], kind: Kind, code: &mut [u32], from: Reached) -> Reached
    requires { PairsFit code.old from.pair (ones (heads_taken s.now kind from.next)) }
    ensures { ListCopied code.old from.pair (heads_taken s.now kind from.next) (heads_past s.now kind from.next) from.mark code.new result }
{
    match kind {
        Kind::Choice => copy_list(s, code, from),
        _ => {
            let head = take_number(s, from.next);
            write_pair(code, from.pair, head.value, 1);
            Reached {
                pair: from.pair + 1,
                next: head.next,
                mark: mixed(carried(from.mark), 0, head.value),
            }
        }
    }
}

fn has_bound(kind: Kind) -> bool
    ensures { result ≡ has_bound kind }
{
    matches!(kind, Kind::Constraint | Kind::Weight)
}

fn weighs(kind: Kind) -> bool
    ensures { result ≡ weighs kind }
{
    matches!(kind, Kind::Weight)
}

// The bound at a place, where a rule of this kind has one.
#[tactic(auto, unfolding(crate::specs::Inner::Taken::bound_taken, rules::specs::Sum::pick))]
fn take_bound(s: &[u8], kind: Kind, at: usize) -> Span
    ensures { result ≡ bound_taken s.now kind at }
{
    if has_bound(kind) {
        take_number(s, at)
    } else {
        Span::new(0, at, at)
    }
}

// The need of a rule of this kind, with this bound, over a body of this length.
#[tactic(auto, unfolding(crate::specs::Inner::Taken::need_taken, rules::specs::Sum::pick))]
fn need(kind: Kind, bound: usize, length: usize) -> usize
    ensures { result ≡ need_taken kind bound length }
{
    if has_bound(kind) { bound } else { length }
}

// The body that comes next, weighed or not.
fn write_body(s: &[u8], weighs: bool, code: &mut [u32], from: Reached) -> BodyEnds
    requires { BodyAsks s.now weighs from.next code.old from.pair }
    ensures { BodyPut s.now weighs from.next code.old from.pair from.mark code.new result }
{
    let positive = copy_list(s, code, from);
    let negated = copy_list(s, code, positive);
    let negatives = positive.pair;
    if weighs {
        let atoms = Reached {
            pair: from.pair,
            ..negated
        };
        let above = copy_weights(s, code, atoms, negatives);
        let end = copy_weights(s, code, above, negated.pair);
        return BodyEnds { negatives, end };
    }
    BodyEnds {
        negatives,
        end: negated,
    }
}

#[tactic(auto, using(crate::proofs::rows::Laws::row_put), unfolding(table::specs::Inner::Words::row_width))]
fn write_row(
    code: &mut [u32],
    i: usize,
    kind: Kind,
    need: usize,
    heads: usize,
    positives: usize,
    negatives: usize,
)
    requires { RowAsks code.old i need heads positives negatives }
    ensures { code.new ≡ with_row code.old i (kind_number kind) need heads positives negatives }
{
    set_word(code, ROW * i, kind.number());
    set_word(code, ROW * i + 1, need);
    set_word(code, ROW * i + 2, heads);
    set_word(code, ROW * i + 3, positives);
    set_word(code, ROW * i + 4, negatives);
}

// What comes after the heads and the bound of a rule: its body, and then its row; and the mark with its body and need.
pub(crate) fn write_rest(
    s: &[u8],
    kind: Kind,
    bound: Span,
    code: &mut [u32],
    i: usize,
    heads: usize,
    from: Reached,
) -> Reached
    requires { RestAsks s.now kind bound code.old i heads from.pair }
    ensures { RestPut s.now kind bound code.old i heads from.pair from.mark code.new result }
{
    let place = Reached {
        next: bound.next,
        ..from
    };
    let body = write_body(s, weighs(kind), code, place);
    let due = need(kind, bound.value, body.end.pair - from.pair);
    write_row(code, i, kind, due, heads, from.pair, body.negatives);
    Reached {
        mark: mixed(carried(body.end.mark), 0, due),
        ..body.end
    }
}

// The rule at a place, as row i and as pairs from j on; and its mark.
fn write_rule(s: &[u8], at: usize, code: &mut [u32], i: usize, j: usize) -> Reached
    requires { RuleAsks s.now at code.old i j }
    ensures { RulePut s.now at code.old i j code.new result }
{
    let number = take_number(s, at);
    let kind = Kind::of(number.value);
    let start = Reached {
        pair: j,
        next: number.next,
        mark: 0,
    };
    let heads = write_heads(s, kind, code, start);
    let bound = take_bound(s, kind, heads.next);
    write_rest(s, kind, bound, code, i, j, heads)
}

// The row after a rule's: where the rule ends.
#[tactic(auto, unfolding(crate::specs::Inner::Rows::with_end, table::specs::Inner::Words::row_width, table::specs::Inner::Words::pair_width, sheet::specs::Shown::Encode::rules_size))]
pub(crate) fn end_rows(code: &mut [u32], i: usize, j: usize)
    requires { TableRoom code.old i j [] }
    ensures { code.new ≡ with_end code.old i j }
{
    set_word(code, ROW * i + 2, j);
}

// The first pair, past the rows.
#[tactic(auto, unfolding(crate::specs::Inner::Rows::first_pair, rules::specs::Limits::rules_most))]
fn first_pair(count: usize) -> usize
    requires { count ≤ rules_most }
    ensures { result ≡ first_pair count }
{
    3 * (count + 2)
}

// The rules of a sheet, each once, as rows and as pairs; which row has the rule at an index; and the pair and the place after them. A rule
// is written as the row after those that are kept, and where one of them has it already the next one is written in its place.
pub(crate) fn write_rules(s: &[u8], sheet: Outline, wanted: usize, code: &mut [u32]) -> Rows
    requires { Decodable s.now sheet code.old }
    ensures { WritesRules s.now sheet wanted code.old code.new result }
{
    let mut kept = Kept::new();
    let mut rows = Rows {
        count: 0,
        row: 0,
        pair: first_pair(sheet.rules.value),
        next: sheet.rules.first,
    };
    for i in 0..sheet.rules.value {
        let rule = write_rule(s, rows.next, code, rows.count, rows.pair);
        end_rows(code, rows.count + 1, rule.pair);
        let found = kept.keep(code, rows.count as u32, rule.mark) as usize;
        let is_wanted = i == wanted;
        if is_wanted {
            rows.row = found;
        }
        if found == rows.count {
            rows.count += 1;
            rows.pair = rule.pair;
        }
        rows.next = rule.next;
    }
    rows
}
