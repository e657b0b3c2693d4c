// The worked cases of the scope paper and of the change requests, run through the desk's calls; the file stdout has what they must answer, worked out by hand.
#![tactic(auto)]

mod show;

use desk::{Solved, check, margin, open, pin, solve, test};
use rules::Atom;
use show::{show_checked, show_map, show_margin, show_opened, show_refusal, show_tested};
use std::io;
use text::{model_line, none_line};

fn atom_count(sheet: &[u8]) -> usize {
    check(sheet).map_or(0, |counts| counts.atoms)
}

fn show_open(rt: &impl Print, sheet: &[u8], map: &mut [u8]) -> io::Result<()> {
    print!(rt; "  open")?;
    show_opened(rt, open(sheet, map))?;
    show_map(rt, map, atom_count(sheet))
}

fn show_pin(
    rt: &impl Print,
    sheet: &[u8],
    map: &mut [u8],
    name: &str,
    atom: usize,
    side: usize,
) -> io::Result<()> {
    print!(rt; "  pin {name}")?;
    show_opened(rt, pin(sheet, map, atom, side))?;
    show_map(rt, map, atom_count(sheet))
}

fn show_solve(rt: &impl Print, sheet: &[u8], map: &mut [u8]) -> io::Result<()> {
    print!(rt; "  first")?;
    match solve(sheet, map) {
        Ok(Solved::Model) => {
            show_map(rt, map, atom_count(sheet))?;
            print!(rt; "  test")?;
            show_tested(rt, test(sheet, map))?;
            print!(rt; "  line {}", model_line(map, atom_count(sheet)))?;
        }
        Ok(Solved::NoModel) => {
            show_map(rt, map, atom_count(sheet))?;
            print!(rt; "  line {}", none_line())?;
        }
        Err(why) => show_refusal(rt, why)?,
    }
    Ok(())
}

fn show_margin_of(rt: &impl Print, sheet: &[u8], map: &[u8], rule: usize) -> io::Result<()> {
    print!(rt; "  margin")?;
    show_margin(rt, margin(sheet, map, rule))
}

// A sheet opened, and its first model.
fn show_case(rt: &impl Print, name: &str, sheet: &[u8]) -> io::Result<()> {
    let mut map = [0u8; Atom::LAST];
    println!(rt; "{name}")?;
    show_open(rt, sheet, &mut map)?;
    show_solve(rt, sheet, &mut map)
}

fn show_check(rt: &impl Print, name: &str, sheet: &[u8]) -> io::Result<()> {
    print!(rt; "{name}")?;
    show_checked(rt, check(sheet))
}

// Two of four: pins on two maps of one sheet.
fn two_of_four(rt: &impl Print) -> io::Result<()> {
    let sheet =
        b"\x01\x05\x02\x03\x04\x02\x03\x04\x05\x00\x00\x02\x01\x02\x04\x02\x03\x04\x05\x00\x00\x00";
    let mut map = [0u8; Atom::LAST];
    show_case(rt, "choice {2,3,4,5}; 1 if 2 of {2,3,4,5}", sheet)?;
    show_open(rt, sheet, &mut map)?;
    show_pin(rt, sheet, &mut map, "1 out", 1, 2)?;
    show_pin(rt, sheet, &mut map, "2 in", 2, 1)?;
    show_open(rt, sheet, &mut map)?;
    show_pin(rt, sheet, &mut map, "1 in", 1, 1)?;
    show_pin(rt, sheet, &mut map, "2 out", 2, 2)?;
    show_pin(rt, sheet, &mut map, "3 out", 3, 2)
}

// A weight rule, and its margins.
fn weighed(rt: &impl Print) -> io::Result<()> {
    let sheet =
        b"\x01\x04\x02\x03\x03\x02\x03\x04\x00\x00\x05\x01\x06\x02\x02\x03\x01\x04\x03\x04\x02\x00\x00";
    let mut map = [0u8; Atom::LAST];
    show_case(
        rt,
        "choice {2,3,4}; 1 if {2=3, 3=4, not 4=2} at least 6",
        sheet,
    )?;
    show_open(rt, sheet, &mut map)?;
    show_pin(rt, sheet, &mut map, "1 in", 1, 1)?;
    show_open(rt, sheet, &mut map)?;
    show_margin_of(rt, sheet, &map, 2)?;
    show_pin(rt, sheet, &mut map, "2 out", 2, 2)?;
    show_pin(rt, sheet, &mut map, "3 out", 3, 2)?;
    show_margin_of(rt, sheet, &map, 2)
}

// A sheet opened, and atom 1 pinned in.
fn show_pinned(rt: &impl Print, name: &str, sheet: &[u8], map: &mut [u8]) -> io::Result<()> {
    println!(rt; "{name}")?;
    show_open(rt, sheet, map)?;
    show_pin(rt, sheet, map, "1 in", 1, 1)
}

// The only rule for an atom, once, twice, and with another rule that means the same: a repeat counts once. Its margin is that of rule 3.
fn show_repeats(rt: &impl Print) -> io::Result<()> {
    let once = b"\x01\x02\x02\x03\x01\x02\x00\x00\x01\x01\x01\x02\x00\x00\x00";
    let twice = b"\x01\x02\x03\x03\x01\x02\x00\x00\x01\x01\x01\x02\x00\x01\x01\x01\x02\x00\x00\x00";
    let another =
        b"\x01\x02\x03\x03\x01\x02\x00\x00\x01\x01\x01\x02\x00\x02\x01\x01\x01\x02\x00\x00\x00";
    let mut map = [0u8; Atom::LAST];
    show_pinned(rt, "choice {2}; 1 if 2", once, &mut map)?;
    show_pinned(rt, "choice {2}; 1 if 2; 1 if 2", twice, &mut map)?;
    show_margin_of(rt, twice, &map, 3)?;
    show_pinned(rt, "choice {2}; 1 if 2; 1 if 1 of {2}", another, &mut map)
}

// Refusals 1, 2 and 15: where a number ends.
fn show_numbers(rt: &impl Print) -> io::Result<()> {
    show_check(rt, "empty:", b"")?;
    show_check(rt, "01 02:", b"\x01\x02")?;
    show_check(rt, "80 00:", b"\x80\x00")?;
    show_check(rt, "80 80 80:", b"\x80\x80\x80")?;
    show_check(rt, "80 80 80 00:", b"\x80\x80\x80\x00")?;
    show_check(rt, "80 80 80 80:", b"\x80\x80\x80\x80")?;
    show_check(rt, "01 FF FF FF 80 00:", b"\x01\xff\xff\xff\x80\x00")
}

// Refusals 3 to 8, and the shortest sheet.
fn show_sheets(rt: &impl Print) -> io::Result<()> {
    show_check(rt, "02:", b"\x02")?;
    show_check(rt, "01 81 04:", b"\x01\x81\x04")?;
    show_check(rt, "01 80 04:", b"\x01\x80\x04")?;
    show_check(rt, "01 01 01 04:", b"\x01\x01\x01\x04")?;
    show_check(rt, "01 01 01 01 02:", b"\x01\x01\x01\x01\x02")?;
    show_check(rt, "01 02 01 03 02 02 01:", b"\x01\x02\x01\x03\x02\x02\x01")?;
    show_check(rt, "01 00 00 00 00 00:", b"\x01\x00\x00\x00\x00\x00")?;
    show_check(rt, "01 00 00 00 00:", b"\x01\x00\x00\x00\x00")
}

// Refusal 16: a bound above the sum of its rule's weights. The rules are 1 if so many of {2, not 3}, and 1 if {2=30, not 3=20} at least so
// much; then bodies that are empty, a later fault in the same rule, and one in the next.
fn show_bounds(rt: &impl Print) -> io::Result<()> {
    show_check(
        rt,
        "3 of 2:",
        b"\x01\x03\x01\x02\x01\x03\x01\x02\x01\x03\x00\x00",
    )?;
    show_check(
        rt,
        "2 of 2:",
        b"\x01\x03\x01\x02\x01\x02\x01\x02\x01\x03\x00\x00",
    )?;
    show_check(
        rt,
        "500 of 50:",
        b"\x01\x03\x01\x05\x01\xf4\x03\x01\x02\x01\x03\x1e\x14\x00\x00",
    )?;
    show_check(
        rt,
        "51 of 50:",
        b"\x01\x03\x01\x05\x01\x33\x01\x02\x01\x03\x1e\x14\x00\x00",
    )?;
    show_check(
        rt,
        "50 of 50:",
        b"\x01\x03\x01\x05\x01\x32\x01\x02\x01\x03\x1e\x14\x00\x00",
    )?;
    show_check(
        rt,
        "0 of none:",
        b"\x01\x03\x01\x02\x01\x00\x00\x00\x00\x00",
    )?;
    show_check(
        rt,
        "1 of none:",
        b"\x01\x03\x01\x05\x01\x01\x00\x00\x00\x00",
    )?;
    show_check(
        rt,
        "51, then no weight:",
        b"\x01\x03\x01\x05\x01\x33\x01\x02\x01\x03\x1e",
    )?;
    show_check(
        rt,
        "3 of 2, then kind 4:",
        b"\x01\x03\x02\x02\x01\x03\x01\x02\x01\x03\x04",
    )
}

// Sheets of at most two atoms.
fn show_small(rt: &impl Print) -> io::Result<()> {
    show_case(rt, "no atoms", b"\x01\x00\x00\x00\x00")?;
    show_case(rt, "1 if 1", b"\x01\x01\x01\x01\x01\x01\x01\x00\x00\x00")?;
    show_case(
        rt,
        "1 if not 1",
        b"\x01\x01\x01\x01\x01\x00\x01\x01\x00\x00",
    )?;
    show_case(
        rt,
        "1 if not 2; 2 if not 1",
        b"\x01\x02\x02\x01\x01\x00\x01\x02\x01\x02\x00\x01\x01\x00\x00",
    )?;
    show_case(
        rt,
        "choice {1}",
        b"\x01\x01\x01\x03\x01\x01\x00\x00\x00\x00",
    )
}

fn main(rt: HostRuntime) -> io::Result<()> {
    show_small(&rt)?;
    show_case(
        &rt,
        "1 if 2; 2 if 1; 3 if not 1",
        b"\x01\x03\x03\x01\x01\x01\x02\x00\x01\x02\x01\x01\x00\x01\x03\x00\x01\x01\x00\x00",
    )?;
    show_case(
        &rt,
        "1 if 0 of {2}",
        b"\x01\x02\x01\x02\x01\x00\x01\x02\x00\x00\x00",
    )?;
    show_case(
        &rt,
        "choice {1}, 1 in both compute lists",
        b"\x01\x01\x01\x03\x01\x01\x00\x00\x01\x01\x01\x01",
    )?;
    two_of_four(&rt)?;
    weighed(&rt)?;
    show_repeats(&rt)?;
    show_case(
        &rt,
        "P5 of a lecture by Cabalar",
        b"\x01\x08\x08\x01\x01\x01\x03\x01\x02\x01\x02\x00\x01\x01\x01\x03\x00\x00\x01\x04\x01\x05\x01\x07\x01\x05\x01\x04\x01\x07\x01\x06\x00\x01\x04\x01\x07\x00\x01\x03\x01\x08\x01\x07\x00\x00\x00",
    )?;
    show_numbers(&rt)?;
    show_sheets(&rt)?;
    show_bounds(&rt)
}
