// The lists of a sheet: a count, and then atoms, strictly increasing.
ghost use Rattle.std.specs.Prelude.{◌≡◌};
ghost use Rattle.numbers.specs.Answer.{span};
ghost use Rattle.numbers.specs.Lists.{atom_at, in_turn, list_at};
ghost use Rattle.numbers.specs.Inner.Short.{Ahead};

use super::number::{read_number, read_within};
use super::short::{SHORT_MOST, past_bytes};
use super::{Reason, Refusal, Span};
use rules::Atom;

// The atom at a place, one of 1 to n and above the atom before it.
#[tactic(auto, unfolding(crate::specs::Lists::atom_at, crate::specs::Answer::read_then, rules::specs::Sum::pick))]
pub fn read_atom(s: &[u8], n: usize, above: usize, at: usize) -> Result<Span, Refusal>
    ensures { result ≡ atom_at s.now n above at }
{
    let got = read_number(s, at);
    let Ok(number) = got else {
        return got;
    };
    let Some(atom) = Atom::checked(number.value, n) else {
        return Err(Reason::NoAtom.at(at));
    };
    if atom.number() <= above {
        return Err(Reason::NotIncreasing.at(at));
    }
    got
}

// The first of a run of atoms, two by two, as far as each takes one byte and is above the one before: the last of them, and the place after
// them. Of two that go up only the second is held against n.
fn short_atoms(s: &[u8], n: usize, count: usize, first: usize) -> Span
    ensures { Ahead (atom_at s.now n) count first result.value result.next }
{
    let end = past_bytes(s, count, first);
    let most = n.min(SHORT_MOST);
    let mut above = 0;
    let mut at = first;
    // Counted by hand: the index is the answer, so an iterator over pairs would count it beside itself.
    while 1 < end - at {
        let atom = usize::from(s[at]);
        let next = usize::from(s[at + 1]);
        if atom <= above || next <= atom || most < next {
            break;
        }
        above = next;
        at += 2;
    }
    Span::new(above, first, at)
}

// So many atoms from a place on, strictly increasing.
pub fn read_atoms(s: &[u8], n: usize, count: usize, first: usize) -> Result<Span, Refusal>
    ensures { result ≡ in_turn (atom_at s.now n) count 0 (span count first first) }
{
    let short = short_atoms(s, n, count, first);
    let mut above = short.value;
    let mut at = short.next;
    for _ in at - first..count {
        let got = read_atom(s, n, above, at);
        let Ok(atom) = got else {
            return got;
        };
        above = atom.value;
        at = atom.next;
    }
    Ok(Span::new(count, first, at))
}

// The list at a place, of `least` to n atoms.
#[tactic(auto, unfolding(crate::specs::Lists::list_at, crate::specs::Answer::read_then))]
pub fn read_list(s: &[u8], least: usize, n: usize, at: usize) -> Result<Span, Refusal>
    ensures { result ≡ list_at s.now least n at }
{
    let got = read_within(s, least, n, at);
    let Ok(count) = got else {
        return got;
    };
    read_atoms(s, n, count.value, count.next)
}
