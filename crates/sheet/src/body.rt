// The bodies of rules: two lists of atoms, and the weights of their literals where the kind has weights.
ghost use Rattle.std.specs.Prelude.{◌+◌, ◌*◌, ◌≤◌, ◌≡◌};
ghost use Rattle.rules.specs.Limits.{number_most};
ghost use Rattle.sheet.specs.Inner.Sums.{sum_at, AddedAhead};
ghost use Rattle.sheet.specs.Body.{need_for, weighed_at, body_at, unless_above, unless_dead};

use super::{HeadPart, Literals, SheetKind, SheetRule};
use numbers::{Reason, Refusal, SHORT_MOST, Span, past_bytes, read_list, read_within};

// The largest weight of a literal.
const WEIGHT_MOST: usize = 1_000_000;

// The first of so many weights from a place on, as far as each takes one byte: the sum of them and of those before, and the place after
// them. No twin of numbers' `short_atoms`, which goes two by two with an order and a bound: this one adds.
fn short_weights(s: &[u8], before: usize, count: usize, first: usize) -> Span
    requires fits { before ≤ number_most * number_most }
    requires few { count ≤ number_most }
    ensures { AddedAhead s.now before count first result.value result.next }
{
    let end = past_bytes(s, count, first);
    let most = WEIGHT_MOST.min(SHORT_MOST);
    let mut sum = before;
    for at in first..end {
        let weight = usize::from(s[at]);
        if most < weight {
            return Span::new(sum, first, at);
        }
        sum += weight;
    }
    Span::new(sum, first, end)
}

// So many weights from a place on, with the sum of them and of those before.
fn read_weights(s: &[u8], before: usize, count: usize, first: usize) -> Result<Span, Refusal>
    requires fits { before ≤ number_most * number_most }
    requires few { count ≤ number_most }
    ensures { result ≡ sum_at s.now before count first }
{
    let short = short_weights(s, before, count, first);
    let mut sum = short.value;
    let mut at = short.next;
    for _ in at - first..count {
        let got = read_within(s, 0, WEIGHT_MOST, at);
        let Ok(weight) = got else {
            return got;
        };
        sum += weight.value;
        at = weight.next;
    }
    Ok(Span::new(sum, first, at))
}

// A rule, unless its need is above a sum: then it is refused at the place of its bound.
#[tactic(auto, unfolding(crate::specs::Body::unless_above, rules::specs::Sum::pick))]
fn unless_above(sum: usize, bound: usize, rule: SheetRule) -> Result<SheetRule, Refusal>
    ensures { result ≡ unless_above sum bound rule }
{
    if sum < rule.need {
        return Err(Reason::BoundTooHigh.at(bound));
    }
    Ok(rule)
}

// The rule whose lists were read, with its weights, where its kind has weights, unless its need is above the sum of its weights.
fn read_weighed(
    s: &[u8],
    kind: SheetKind,
    bound: usize,
    positive: Span,
    negated: Span,
) -> Result<SheetRule, Refusal>
    requires positive { positive.value ≤ number_most }
    requires negated { negated.value ≤ number_most }
    ensures { result ≡ unless_dead s.now bound (weighed_at s.now kind (need_for kind (positive.value + negated.value)) positive negated) }
{
    let length = positive.value + negated.value;
    let due = kind.need(length);
    if kind.is_plain() {
        let at = negated.next;
        let rule = SheetRule {
            kind,
            need: due,
            positive: Literals::unweighed(positive, at),
            negated: Literals::unweighed(negated, at),
            next: at,
        };
        return unless_above(length, bound, rule);
    }
    let above = read_weights(s, 0, positive.value, negated.next)?;
    let below = read_weights(s, above.value, negated.value, above.next)?;
    let rule = SheetRule {
        kind,
        need: due,
        positive: Literals::weighed(positive, above),
        negated: Literals::weighed(negated, below),
        next: below.next,
    };
    unless_above(below.value, bound, rule)
}

// The rule with this head part, whose body comes after it.
#[tactic(auto, unfolding(crate::specs::Body::body_at, crate::specs::Body::unless_dead, numbers::specs::Answer::read_then))]
pub(crate) fn read_body(s: &[u8], n: usize, head: HeadPart) -> Result<SheetRule, Refusal>
    ensures { result ≡ unless_dead s.now head.bound (body_at s.now n head.kind head.next) }
{
    let positive = read_list(s, 0, n, head.next)?;
    let negated = read_list(s, 0, n, positive.next)?;
    read_weighed(s, head.kind, head.bound, positive, negated)
}
