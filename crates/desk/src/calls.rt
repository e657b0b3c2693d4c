// Each call: its gate, its work on the sheet's table, and its answer handed over. A rule, a part, an atom and a side come as the plain numbers
// that the C interface has; the gate makes typed values of them.
ghost use Rattle.rules.specs.Rule.{Within};
ghost use Rattle.rules.specs.Inner.Bytes.{Room, MapBytes};
ghost use Rattle.desk.specs.Promise.{Checks, Parts, Opens, Pins, Solves, Tests, Margins};

use super::hand::{hand, write_threes};
use super::run::on_table;
use super::{Counts, Solved};
use gate::{margin_gate, part_gate, pin_or_stay_gate, room_gate, test_gate};
use numbers::Refusal;
use rules::RuleNo;
use sheet::read_sheet;
use task::{copy, first_model, held, opened, pinned};

// "Check a sheet: accepted with n and the rule count, or a refusal."
pub fn check(s: &[u8]) -> Result<Counts, Refusal>
    ensures { Checks s.now result }
{
    let sheet = read_sheet(s)?;
    Ok(Counts {
        atoms: sheet.atoms,
        rules: sheet.rules.value,
    })
}

// "Read a rule by its number: its kind, heads, need, body and weights": a part by its number, or that the rule has no such part.
pub fn part(s: &[u8], rule: usize, part: usize, index: usize) -> Result<Option<usize>, Refusal>
    ensures { Parts s.now rule part index result }
{
    let (sheet, asked) = part_gate(s, rule)?;
    let place = asked.number() - RuleNo::FIRST;
    Ok(on_table(s, sheet, place, |_, row| {
        table::part(row.code, row.at, part, index)
    }))
}

// "Open: writes the smallest closed map holding the compute lists": with the number of its undecided atoms, or none where there is none.
pub fn open(s: &[u8], map: &mut [u8]) -> Result<Option<usize>, Refusal>
    ensures { Opens s.now map.old map.new result }
{
    let sheet = room_gate(s, map)?;
    let closed = on_table(s, sheet, 0, |t, _| opened(&t));
    Ok(hand(sheet.atoms, closed, map))
}

// "Pin: takes an atom and 1 (in) or 2 (out); the map becomes the smallest closed map holding the old map and the pin." "A pin on a
// contradiction answers contradiction again."
pub fn pin(s: &[u8], map: &mut [u8], atom: usize, side: usize) -> Result<Option<usize>, Refusal>
    ensures { Pins s.now map.old atom side map.new result }
{
    let (sheet, asked) = pin_or_stay_gate(s, map, atom, side)?;
    let Some(put) = asked else {
        return Ok(None);
    };
    let closed = on_table(
        s,
        sheet,
        0,
        |t, _|
            requires map { MapBytes t.atoms map.now }
            requires atom { Within t.atoms put.atom.number }
        { pinned(&t, put, map) },
    );
    Ok(hand(sheet.atoms, closed, map))
}

// "Solve: the first agreeing stable model as a map of 1s and 2s, or none and n bytes of 3."
pub fn solve(s: &[u8], map: &mut [u8]) -> Result<Solved, Refusal>
    ensures { Solves s.now map.old map.new result }
{
    let sheet = room_gate(s, map)?;
    let n = sheet.atoms;
    // not by `hand`: a model has no number beside it
    match on_table(s, sheet, 0, |t, _| first_model(&t)) {
        Some(model) => {
            copy(&model, n, map);
            Ok(Solved::Model)
        }
        None => {
            write_threes(n, map);
            Ok(Solved::NoModel)
        }
    }
}

// "Test: for a map of 1s and 2s, yes exactly when its in-atoms form a stable model that agrees": when the map with the compute lists is
// closed as it stands.
pub fn test(s: &[u8], map: &[u8]) -> Result<bool, Refusal>
    ensures { Tests s.now map.now result }
{
    let sheet = test_gate(s, map)?;
    let closed = on_table(
        s,
        sheet,
        0,
        |t, _|
            requires { MapBytes t.atoms map.now }
        { held(&t, map) },
    );
    Ok(closed.is_some())
}

// "Margin: reach less need for one rule on one map."
pub fn margin(s: &[u8], map: &[u8], rule: usize) -> Result<i64, Refusal>
    ensures { Margins s.now map.now rule result }
{
    let (sheet, asked) = margin_gate(s, map, rule)?;
    let place = asked.number() - RuleNo::FIRST;
    Ok(on_table(
        s,
        sheet,
        place,
        |_, row|
            requires { Room row.atoms map.now }
        { weigh::margin(&row, map) },
    ))
}
