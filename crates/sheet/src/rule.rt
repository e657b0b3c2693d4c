// The rules of a sheet, each read from its place.
ghost use Rattle.std.specs.Prelude.{◌≡◌};
ghost use Rattle.sheet.specs.Rule.{bounded, rule_at, rules_at};
ghost use Rattle.sheet.specs.Inner.Head.{choice_head, bound_head, single_head, head_at};

use super::body::read_body;
use super::{HeadPart, SheetKind, SheetRule};
use numbers::{Reason, Refusal, Span, read_list, read_number};
use rules::{Atom, Kind};

#[tactic(auto, unfolding(crate::specs::Inner::Head::choice_head, numbers::specs::Answer::read_then))]
fn read_choice(s: &[u8], n: usize, at: usize) -> Result<HeadPart, Refusal>
    ensures { result ≡ choice_head s.now n at }
{
    let heads = read_list(s, 1, n, at)?;
    Ok(HeadPart {
        kind: SheetKind::Choice(heads),
        bound: heads.next,
        next: heads.next,
    })
}

// The kind with this head and bound: a weight rule's where its literals are weighed, and else a constraint's.
fn bounded(weighs: bool, head: Atom, bound: usize) -> SheetKind
    ensures { result ≡ bounded weighs head bound }
{
    if weighs {
        SheetKind::Weight(head, bound)
    } else {
        SheetKind::Constraint(head, bound)
    }
}

// The bound after a head.
#[tactic(auto, unfolding(crate::specs::Inner::Head::bound_head, numbers::specs::Answer::read_then))]
fn read_bounded(s: &[u8], weighs: bool, head: Atom, at: usize) -> Result<HeadPart, Refusal>
    ensures { result ≡ bound_head s.now weighs head at }
{
    let bound = read_number(s, at)?;
    Ok(HeadPart {
        kind: bounded(weighs, head, bound.value),
        bound: at,
        next: bound.next,
    })
}

// The head part of a kind with a single head.
#[tactic(auto, unfolding(crate::specs::Inner::Head::single_head, crate::specs::Inner::Head::after_single, numbers::specs::Answer::read_then))]
fn read_single(s: &[u8], n: usize, kind: Kind, at: usize) -> Result<HeadPart, Refusal>
    ensures { result ≡ single_head s.now n kind at }
{
    let number = read_number(s, at)?;
    let Some(head) = Atom::checked(number.value, n) else {
        return Err(Reason::NoAtom.at(at));
    };
    if kind == Kind::Basic {
        return Ok(HeadPart {
            kind: SheetKind::Basic(head),
            bound: number.next,
            next: number.next,
        });
    }
    read_bounded(s, kind == Kind::Weight, head, number.next)
}

// The number of a rule's kind, and then its head part.
#[tactic(auto, unfolding(crate::specs::Inner::Head::head_at, crate::specs::Inner::Head::kind_head, numbers::specs::Answer::read_then))]
fn read_head(s: &[u8], n: usize, at: usize) -> Result<HeadPart, Refusal>
    ensures { result ≡ head_at s.now n at }
{
    let number = read_number(s, at)?;
    let Some(kind) = Kind::checked(number.value) else {
        return Err(Reason::UnknownKind.at(at));
    };
    if kind == Kind::Choice {
        return read_choice(s, n, number.next);
    }
    read_single(s, n, kind, number.next)
}

// The rule at a place, on a sheet of n atoms.
pub fn read_rule(s: &[u8], n: usize, at: usize) -> Result<SheetRule, Refusal>
    ensures { result ≡ rule_at s.now n at }
{
    let head = read_head(s, n, at)?;
    read_body(s, n, head)
}

// So many rules from a place on.
pub(crate) fn read_rules(s: &[u8], n: usize, count: usize, first: usize) -> Result<Span, Refusal>
    ensures { result ≡ rules_at s.now n count first }
{
    let mut at = first;
    for _ in 0..count {
        at = read_rule(s, n, at)?.next;
    }
    Ok(Span::new(count, first, at))
}
