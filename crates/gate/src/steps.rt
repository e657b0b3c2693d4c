// The steps of the gates: each tests one thing of a sheet of n atoms, or of so many rules.
ghost use Rattle.std.specs.Prelude.{◌≡◌};
ghost use Rattle.gate.specs.Gate.{room, pin, rule, no_fault, map_bytes, model_bytes, no_contradiction, then_give, then_stay, pin_of, rule_of};

use super::Pin;
use super::scan::{is_contradiction, map_fault, model_fault};
use numbers::{Reason, Refusal};
use rules::{Atom, RuleNo};

// 10: "map shorter than n".
#[tactic(auto, unfolding(crate::specs::Gate::stop_if, rules::specs::Sum::pick))]
pub fn room(n: usize, m: &[u8]) -> Result<(), Refusal>
    ensures { result ≡ room n m.now }
{
    if m.len() < n {
        return Err(Reason::MapTooShort.at(0));
    }
    Ok(())
}

// 11: "pinned atom 0 or above n, or side not 1 or 2". The side comes as the number that the C interface has.
#[tactic(auto, unfolding(crate::specs::Gate::stop_if, rules::specs::Sum::pick, crate::specs::Gate::then_give, numbers::specs::Answer::read_then, rules::specs::Number::checked_atom))]
pub fn pin(n: usize, atom: usize, side: usize) -> Result<Pin, Refusal>
    ensures { result ≡ then_give (pin_of atom side) (pin n atom side) }
{
    let barred = Reason::BadPin.at(0);
    let atom = Atom::checked(atom, n).ok_or(barred)?;
    match side {
        1 => Ok(Pin { atom, inside: true }),
        2 => Ok(Pin {
            atom,
            inside: false,
        }),
        _ => Err(barred),
    }
}

// 13: "rule number 0 or above the rule count".
#[tactic(auto, unfolding(crate::specs::Gate::stop_if, rules::specs::Sum::pick, crate::specs::Gate::then_give, numbers::specs::Answer::read_then, rules::specs::Number::checked_rule))]
pub fn rule(count: usize, number: usize) -> Result<RuleNo, Refusal>
    ensures { result ≡ then_give (rule_of number) (rule count number) }
{
    RuleNo::checked(number, count).ok_or(Reason::NoRule.at(0))
}

// 12: "map byte not allowed", where a fault was found below n.
#[tactic(auto, unfolding(crate::specs::Gate::stop_if, rules::specs::Sum::pick))]
fn no_fault(n: usize, place: usize) -> Result<(), Refusal>
    ensures { result ≡ no_fault n place }
{
    if place < n {
        return Err(Reason::BadMapByte.at(place));
    }
    Ok(())
}

// 12 of a map.
pub fn map_bytes(n: usize, m: &[u8]) -> Result<(), Refusal>
    ensures { result ≡ map_bytes n m.now }
{
    no_fault(n, map_fault(m, n))
}

// 12 of a map of 1s and 2s.
pub fn model_bytes(n: usize, m: &[u8]) -> Result<(), Refusal>
    ensures { result ≡ model_bytes n m.now }
{
    no_fault(n, model_fault(m, n))
}

// 14: "margin asked on a contradiction".
#[tactic(auto, unfolding(crate::specs::Gate::stop_if, rules::specs::Sum::pick))]
pub fn no_contradiction(n: usize, m: &[u8]) -> Result<(), Refusal>
    ensures { result ≡ no_contradiction n m.now }
{
    if is_contradiction(m, n) {
        return Err(Reason::MarginOnContradiction.at(0));
    }
    Ok(())
}

// "A pin on a contradiction answers contradiction again": there the pin is not handed on.
#[tactic(auto, unfolding(rules::specs::Sum::pick))]
pub fn stay_contradiction(n: usize, m: &[u8], pin: Pin) -> Option<Pin>
    ensures { result ≡ then_stay n m.now pin }
{
    let is_stuck = is_contradiction(m, n);
    if is_stuck {
        return None;
    }
    Some(pin)
}
