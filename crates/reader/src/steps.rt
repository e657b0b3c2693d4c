// The step that reads the rule at a place of a sheet. Every function takes any bytes and any place.
ghost use Rattle.std.specs.Prelude.{◌≡◌};
ghost use Rattle.reader.specs.Place.{first_place, rest_step, step_at, place_after, at_end};

use super::{NextRule, Place, Rest, Step};
use sheet::{read_rule, read_sheet};

// The place of the first rule, or the refusal of the sheet.
#[tactic(auto, unfolding(crate::specs::Place::first_place, numbers::specs::Answer::read_then))]
pub fn first_place(s: &[u8]) -> Place
    ensures { result ≡ first_place s.now }
{
    let sheet = read_sheet(s)?;
    Ok(Rest {
        atoms: sheet.atoms,
        left: sheet.rules.value,
        at: sheet.rules.first,
    })
}

// The first of the rules that are left.
#[tactic(auto, unfolding(crate::specs::Place::rest_step, numbers::specs::Answer::read_then, rules::specs::Sum::pick))]
fn rest_step(s: &[u8], rest: Rest) -> NextRule
    ensures { result ≡ rest_step s.now rest }
{
    if rest.left == 0 {
        return Ok(None);
    }
    let rule = read_rule(s, rest.atoms, rest.at)?;
    Ok(Some(Step {
        rule,
        place: Ok(Rest {
            atoms: rest.atoms,
            left: rest.left - 1,
            at: rule.next,
        }),
    }))
}

// The step at a place.
#[tactic(auto, unfolding(crate::specs::Place::step_at, numbers::specs::Answer::read_then))]
pub fn step_at(s: &[u8], place: Place) -> NextRule
    ensures { result ≡ step_at s.now place }
{
    rest_step(s, place?)
}

// The place after a step: after a rule that was read, the place that came with it, and else the same.
#[tactic(auto, unfolding(crate::specs::Place::place_after))]
pub fn place_after(step: NextRule, place: Place) -> Place
    ensures { result ≡ place_after step place }
{
    match step {
        Ok(Some(read)) => read.place,
        _ => place,
    }
}

// Whether a place is past the last rule.
#[tactic(auto, unfolding(crate::specs::Place::at_end))]
pub fn past_last(place: Place) -> bool
    ensures { result ≡ at_end place }
{
    place.is_ok_and(|rest| rest.left == 0)
}
