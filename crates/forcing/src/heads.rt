// Forcing rules 1 and 3: what a rule that must give its head asks of the head and of the body.
ghost use Rattle.rules.specs.Inner.Bytes.{MapBytes};
ghost use Rattle.forcing.specs.Inner.Heads.{HeadAsks, Settles, SettlesAll};

use super::pass::place;
use table::{Table, TableRow};
use weigh::{Clash, IN, OUT, press_body, put, side_of, sure};

// A rule that is no choice rule and whose head has side x.
fn settle_head(row: &TableRow, head: u32, x: u8, m: &mut [u8]) -> Result<bool, Clash>
    requires { HeadAsks row.now.code.now row.now.atoms row.now.at head x m.old }
    ensures { Settles row.now.code.now row.now.atoms row.now.at m.old m.new result }
{
    let need = row.need();
    let held = sure(row, m);
    if need <= held {
        return put(m, row.atoms, head, IN);
    }
    let is_out = x == OUT;
    if is_out {
        return press_body(row, need - held, false, m);
    }
    Ok(false)
}

// A rule: a body that is sure gives the head, and a head that is out denies the body.
fn settle(row: &TableRow, m: &mut [u8]) -> Result<bool, Clash>
    requires { MapBytes row.now.atoms m.old }
    ensures { Settles row.now.code.now row.now.atoms row.now.at m.old m.new result }
{
    if row.is_choice() {
        return Ok(false);
    }
    let head = row.atom(row.heads());
    let x = side_of(m, row.atoms, head);
    let is_in = x == IN;
    if is_in {
        return Ok(false);
    }
    settle_head(row, head, x, m)
}

// Every rule, one after another, up or down.
pub fn settle_all(t: &Table, down: bool, m: &mut [u8]) -> Result<bool, Clash>
    requires { MapBytes t.now.atoms m.old }
    ensures { SettlesAll t.now.code.now t.now.atoms t.now.rules m.old m.new result }
{
    let mut grew = false;
    for i in 0..t.rules {
        let row = t.row(place(t.rules, i, down));
        grew |= settle(&row, m)?;
    }
    Ok(grew)
}
