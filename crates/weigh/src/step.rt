// Putting an atom on a side.
ghost use Rattle.weigh.specs.Inner.Step.{Puts};
ghost use Rattle.weigh.specs.Inner.Weigh.{Side};

use super::{Clash, OPEN};

// Put atom a, one of n, on a side: a clash where it is on the other.
pub fn put(m: &mut [u8], n: u32, a: u32, v: u8) -> Result<bool, Clash>
    requires { Side n a m.old }
    ensures { Puts n m.old a v m.new result }
{
    let i = (a - 1) as usize;
    let x = m[i];
    if x == v {
        return Ok(false);
    }
    if x != OPEN {
        return Err(Clash);
    }
    m[i] = v;
    Ok(true)
}
