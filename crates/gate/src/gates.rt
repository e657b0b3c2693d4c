// The gates of the calls: "Number 9 is tested first, then the sheet in reading order, then 10, 11, 13, 12, 14, as far as the call has such
// an input." Each hands on the sheet, and the pin or the rule that was let through with it. Atom, side and rule number come as the plain numbers
// that desk's calls take: their contracts answer every number, with 11 or 13 where it is none. Each gate is written out, test after test, as its
// definition is, so that the order can be read off it.
ghost use Rattle.std.specs.Prelude.{◌≡◌};
ghost use Rattle.gate.specs.Gate.{room_gate, test_gate, pin_gate, margin_gate, part_gate, with_pin, with_stay, with_rule};

use super::Pin;
use super::steps::{map_bytes, model_bytes, no_contradiction, pin, room, rule, stay_contradiction};
use numbers::Refusal;
use rules::RuleNo;
use sheet::{Outline, read_sheet};

// The gate of a call that writes the map and does not read it.
#[tactic(auto, unfolding(crate::specs::Gate::gate, crate::specs::Gate::tested, numbers::specs::Answer::read_then))]
pub fn room_gate(s: &[u8], m: &[u8]) -> Result<Outline, Refusal>
    ensures { result ≡ room_gate s.now m.now }
{
    let outline = read_sheet(s)?;
    room(outline.atoms, m)?;
    Ok(outline)
}

#[tactic(auto, unfolding(crate::specs::Gate::gate, crate::specs::Gate::tested, numbers::specs::Answer::read_then))]
pub fn test_gate(s: &[u8], m: &[u8]) -> Result<Outline, Refusal>
    ensures { result ≡ test_gate s.now m.now }
{
    let sheet = read_sheet(s)?;
    let n = sheet.atoms;
    room(n, m)?;
    model_bytes(n, m)?;
    Ok(sheet)
}

// The pin is handed on whatever the map holds, a contradiction too. No call of desk's goes by it. By way of the next gate, which has no pin there,
// `pin` would be asked twice, and edit pin_gate_twelve_before_eleven be refused for its form alone.
#[tactic(auto, unfolding(crate::specs::Gate::gate, crate::specs::Gate::tested, crate::specs::Gate::beside, crate::specs::Gate::then_give, numbers::specs::Answer::read_then))]
pub fn pin_gate(s: &[u8], m: &[u8], atom: usize, side: usize) -> Result<(Outline, Pin), Refusal>
    ensures { result ≡ with_pin atom side (pin_gate s.now m.now atom side) }
{
    let read = read_sheet(s)?;
    room(read.atoms, m)?;
    let asked = pin(read.atoms, atom, side)?;
    map_bytes(read.atoms, m)?;
    Ok((read, asked))
}

// The gate of desk's pin: the same, but on a contradiction no pin is handed on.
#[tactic(auto, unfolding(crate::specs::Gate::gate, crate::specs::Gate::tested, crate::specs::Gate::beside, crate::specs::Gate::then_give, numbers::specs::Answer::read_then))]
pub fn pin_or_stay_gate(
    s: &[u8],
    m: &[u8],
    atom: usize,
    side: usize,
) -> Result<(Outline, Option<Pin>), Refusal>
    ensures { result ≡ with_stay m.now atom side (pin_gate s.now m.now atom side) }
{
    let sheet = read_sheet(s)?;
    room(sheet.atoms, m)?;
    let pinned = pin(sheet.atoms, atom, side)?;
    map_bytes(sheet.atoms, m)?;
    Ok((sheet, stay_contradiction(sheet.atoms, m, pinned)))
}

#[tactic(auto, unfolding(crate::specs::Gate::gate, crate::specs::Gate::tested, crate::specs::Gate::beside, crate::specs::Gate::then_give, numbers::specs::Answer::read_then))]
pub fn margin_gate(s: &[u8], m: &[u8], number: usize) -> Result<(Outline, RuleNo), Refusal>
    ensures { result ≡ with_rule number (margin_gate s.now m.now number) }
{
    let sheet = read_sheet(s)?;
    room(sheet.atoms, m)?;
    let asked = rule(sheet.rules.value, number)?;
    let n = sheet.atoms;
    map_bytes(n, m)?;
    no_contradiction(n, m)?;
    Ok((sheet, asked))
}

#[tactic(auto, unfolding(crate::specs::Gate::gate, crate::specs::Gate::tested, crate::specs::Gate::beside, crate::specs::Gate::then_give, numbers::specs::Answer::read_then))]
pub fn part_gate(s: &[u8], number: usize) -> Result<(Outline, RuleNo), Refusal>
    ensures { result ≡ with_rule number (part_gate s.now number) }
{
    let sheet = read_sheet(s)?;
    Ok((sheet, rule(sheet.rules.value, number)?))
}

#[cfg(test)]
mod tests {
    use super::*;
    use numbers::Reason;
    use std::test::Fail;

    // Lot 1 if not lot 2, lot 2 if not lot 1: examples/two-lots.sheet.
    const TWO_LOTS: [u8; 15] = [1, 2, 2, 1, 1, 0, 1, 2, 1, 2, 0, 1, 1, 0, 0];

    // Atom 2 put in: its pin is handed on whatever map may come in, all 3 too, where `pin_or_stay_gate` hands none on.
    #[test]
    fn hands_the_pin_on(rt: HostRuntime) -> Result<(), Fail> {
        for (map, stays) in [([0, 0], false), ([1, 2], false), ([3, 3], true)] {
            let (sheet, pin) = pin_gate(&TWO_LOTS, &map, 2, 1).ok().ok_or("refused")?;
            assert_eq!(rt; sheet.atoms, 2);
            assert_eq!(rt; (pin.atom.number(), pin.inside), (2, true), "on {map:?}");
            let (_, asked) = pin_or_stay_gate(&TWO_LOTS, &map, 2, 1)
                .ok()
                .ok_or("refused")?;
            assert_eq!(rt; asked.is_none(), stays, "on {map:?}");
        }
        Ok(())
    }

    // 10 is tested before 11, and 11 before 12.
    #[test]
    fn refuses_in_order(rt: HostRuntime) {
        let short = pin_gate(&TWO_LOTS, &[4], 3, 1).err();
        assert_eq!(rt; short, Some(Reason::MapTooShort.at(0)));
        for (atom, side) in [(0, 1), (3, 1), (2, 0), (2, 3)] {
            let barred = pin_gate(&TWO_LOTS, &[0, 4], atom, side).err();
            assert_eq!(rt;
                barred,
                Some(Reason::BadPin.at(0)),
                "atom {atom}, side {side}"
            );
        }
        let fault = pin_gate(&TWO_LOTS, &[0, 4], 2, 2).err();
        assert_eq!(rt; fault, Some(Reason::BadMapByte.at(1)));
    }
}
