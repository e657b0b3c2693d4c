// The map that was worked on, handed over to the lent one: its first n bytes and the number of its undecided atoms, or n bytes of 3.
ghost use Rattle.std.specs.Prelude.{◌≡◌};
ghost use Rattle.rules.specs.Inner.Bytes.{Room};
ghost use Rattle.desk.specs.Promise.{threes};
ghost use Rattle.desk.specs.Inner.Hand.{HandAsks, Hands};

use task::{ClosedMap, copy};

// "All n bytes 3 means contradiction."
pub(crate) fn write_threes(n: usize, map: &mut [u8])
    requires { Room n map.old }
    ensures { map.new ≡ threes n map.old }
{
    map[..n].fill(3);
}

pub(crate) fn hand(n: usize, closed: Option<ClosedMap>, map: &mut [u8]) -> Option<usize>
    requires { HandAsks n closed map.old }
    ensures { Hands n closed map.old map.new result }
{
    match closed {
        Some(closed) => {
            copy(&closed.map, n, map);
            Some(closed.undecided)
        }
        None => {
            write_threes(n, map);
            None
        }
    }
}
