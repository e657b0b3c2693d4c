// The exported calls for Rust and C: each is the call of its name of crate archive. include/archive.h has them for C.
#![tactic(auto)]

ghost use Rattle.desk.specs.Promise.{Checks, Opens, Pins, Solves, Tests, Margins, Parts};
ghost use Rattle.archive.specs.Code.{HandsOn, code_checked, code_opened, code_solved, code_tested, code_margin, code_part};

#[unsafe(no_mangle)]
pub extern "C" fn desk_check(s: &[u8]) -> u64
    ensures { HandsOn (Checks s.now) code_checked result }
{
    archive::desk_check(s)
}

#[unsafe(no_mangle)]
pub extern "C" fn desk_open(s: &[u8], map: &mut [u8]) -> u64
    ensures { HandsOn (Opens s.now map.old map.new) code_opened result }
{
    archive::desk_open(s, map)
}

#[unsafe(no_mangle)]
pub extern "C" fn desk_pin(s: &[u8], map: &mut [u8], atom: u64, side: u64) -> u64
    ensures { HandsOn (Pins s.now map.old atom side map.new) code_opened result }
{
    archive::desk_pin(s, map, atom, side)
}

#[unsafe(no_mangle)]
pub extern "C" fn desk_solve(s: &[u8], map: &mut [u8]) -> u64
    ensures { HandsOn (Solves s.now map.old map.new) code_solved result }
{
    archive::desk_solve(s, map)
}

#[unsafe(no_mangle)]
pub extern "C" fn desk_test(s: &[u8], map: &[u8]) -> u64
    ensures { HandsOn (Tests s.now map.now) code_tested result }
{
    archive::desk_test(s, map)
}

#[unsafe(no_mangle)]
pub extern "C" fn desk_margin(s: &[u8], map: &[u8], rule: u64) -> u64
    ensures { HandsOn (Margins s.now map.now rule) code_margin result }
{
    archive::desk_margin(s, map, rule)
}

// A part of a rule, by its number; include/archive.h lists the parts.
#[unsafe(no_mangle)]
pub extern "C" fn desk_rule(s: &[u8], rule: u64, part: u64, index: u64) -> u64
    ensures { HandsOn (Parts s.now rule part index) code_part result }
{
    archive::desk_rule(s, rule, part, index)
}
