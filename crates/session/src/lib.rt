// A desk session: one record with a map of its own, with room for every sheet, which open and pin change in place.
// The functions on a lent session are thin: each hands the record over by value, and takes back what it became; both kinds are the form that
// the scope paper names for this place. Atom and side stay plain numbers: the contracts (`Pins`) answer every number.
#![tactic(auto)]

ghost use Rattle.std.specs.Prelude.{◌≡◌};
ghost use Rattle.desk.specs.Promise.{Opens, Pins};
ghost use Rattle.rules.specs.Map.{blank};

use desk::{open as open_map, pin as pin_map};
use numbers::Refusal;
use rules::Atom;

#[derive(Clone, Copy, Debug, PartialEq, Eq)]
pub struct Session {
    pub map: [u8; Atom::LAST],
}

// What a call makes of a session: the session after it, and the answer.
#[derive(Clone, Copy, Debug, PartialEq, Eq)]
pub struct Turn {
    pub session: Session,
    pub answer: Result<Option<usize>, Refusal>,
}

// "all 0 at first"
pub fn start() -> Session
    ensures { result.map ≡ blank }
{
    Session {
        map: [0; Atom::LAST],
    }
}

// Open, by value.
pub fn opened(session: Session, s: &[u8]) -> Turn
    ensures { Opens s.now session.map result.session.map result.answer }
{
    let mut map = session.map;
    let answer = open_map(s, &mut map);
    Turn {
        session: Session { map },
        answer,
    }
}

// Pin, by value.
pub fn pinned(session: Session, s: &[u8], atom: usize, side: usize) -> Turn
    ensures { Pins s.now session.map atom side result.session.map result.answer }
{
    let mut map = session.map;
    let answer = pin_map(s, &mut map, atom, side);
    Turn {
        session: Session { map },
        answer,
    }
}

// Open on the session's map.
pub fn open(session: &mut Session, s: &[u8]) -> Result<Option<usize>, Refusal>
    ensures { Opens s.now session.old.map session.new.map result }
{
    let turn = opened(*session, s);
    *session = turn.session;
    turn.answer
}

// Pin on the session's map.
pub fn pin(
    session: &mut Session,
    s: &[u8],
    atom: usize,
    side: usize,
) -> Result<Option<usize>, Refusal>
    ensures { Pins s.now session.old.map atom side session.new.map result }
{
    let turn = pinned(*session, s, atom, side);
    *session = turn.session;
    turn.answer
}
