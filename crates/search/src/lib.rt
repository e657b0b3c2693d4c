// The search for the first model above a closed map: three functions that call each other, with the map by value at each (the scope paper's form).
#![tactic(auto)]

ghost use Rattle.std.specs.Prelude.{◌+◌};
ghost use Rattle.search.specs.Inner.Search.{Standing, Open, Tries, Follows, Answers};

use forcing::{close, lowest};
use rules::Atom;
use table::Table;
use weigh::{Clash, side_for};

// The map with the atom at this index put on one side, closed.
fn guess(
    t: &Table,
    map: [u8; Atom::LAST],
    i: usize,
    inside: bool,
) -> Result<[u8; Atom::LAST], Clash>
    requires { Open t.now.code.now t.now.atoms t.now.rules map i }
    ensures { Tries t.now.code.now t.now.atoms t.now.rules map (i + 1) inside result }
{
    let mut next = map;
    next[i] = side_for(inside);
    close(t, &mut next)?;
    Ok(next)
}

// The first model that has the guess.
#[cycle(choose_follow_trial)]
fn follow(t: &Table, map: [u8; Atom::LAST], i: usize, inside: bool) -> Option<[u8; Atom::LAST]>
    requires { Open t.now.code.now t.now.atoms t.now.rules map i }
    ensures { Follows t.now.code.now t.now.atoms t.now.rules map (i + 1) inside result }
{
    let Ok(next) = guess(t, map, i, inside) else {
        return None;
    };
    choose(t, next)
}

// First with the atom in, then with it out: the map is kept, and the second guess is made on it as it stood before the first.
#[cycle(choose_follow_trial)]
fn trial(t: &Table, map: [u8; Atom::LAST], i: usize) -> Option<[u8; Atom::LAST]>
    requires { Open t.now.code.now t.now.atoms t.now.rules map i }
    ensures { Answers t.now.code.now t.now.atoms t.now.rules map result }
{
    let first = follow(t, map, i, true);
    if first.is_some() {
        return first;
    }
    follow(t, map, i, false)
}

// The first model above a closed map: the map itself where it decides every atom, and else by trial of the lowest that it leaves.
#[cycle(choose_follow_trial)]
pub fn choose(t: &Table, map: [u8; Atom::LAST]) -> Option<[u8; Atom::LAST]>
    requires { Standing t.now.code.now t.now.atoms t.now.rules map }
    ensures { Answers t.now.code.now t.now.atoms t.now.rules map result }
{
    let Some(i) = lowest(&map, t.atoms) else {
        return Some(map);
    };
    trial(t, map, i)
}
