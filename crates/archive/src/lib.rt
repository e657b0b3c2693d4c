// The calls with their answers as one number: each hands on the desk's answer. Crate archive_c exports them for Rust and C.
#![tactic(auto)]

mod code;

ghost use Rattle.desk.specs.Promise.{Checks, Opens, Pins, Solves, Tests, Margins, Parts};
ghost use Rattle.archive.specs.Code.{HandsOn, code_checked, code_opened, code_solved, code_tested, code_margin, code_part};

use code::{of_checked, of_margin, of_opened, of_part, of_solved, of_tested};
use desk::{check, margin, open, part as part_of, pin, solve, test};

pub fn desk_check(s: &[u8]) -> u64
    ensures { HandsOn (Checks s.now) code_checked result }
{
    of_checked(check(s))
}

pub fn desk_open(s: &[u8], map: &mut [u8]) -> u64
    ensures { HandsOn (Opens s.now map.old map.new) code_opened result }
{
    of_opened(open(s, map))
}

pub fn desk_pin(s: &[u8], map: &mut [u8], atom: u64, side: u64) -> u64
    ensures { HandsOn (Pins s.now map.old atom side map.new) code_opened result }
{
    of_opened(pin(s, map, atom as usize, side as usize))
}

pub fn desk_solve(s: &[u8], map: &mut [u8]) -> u64
    ensures { HandsOn (Solves s.now map.old map.new) code_solved result }
{
    of_solved(solve(s, map))
}

pub fn desk_test(s: &[u8], map: &[u8]) -> u64
    ensures { HandsOn (Tests s.now map.now) code_tested result }
{
    of_tested(test(s, map))
}

pub fn desk_margin(s: &[u8], map: &[u8], rule: u64) -> u64
    ensures { HandsOn (Margins s.now map.now rule) code_margin result }
{
    of_margin(margin(s, map, rule as usize))
}

// A part of a rule, by its number; include/archive.h lists the parts.
pub fn desk_rule(s: &[u8], rule: u64, part: u64, index: u64) -> u64
    ensures { HandsOn (Parts s.now rule part index) code_part result }
{
    of_part(part_of(s, rule as usize, part as usize, index as usize))
}
