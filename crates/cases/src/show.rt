// What the calls answer, as text on standard output.
use desk::Counts;
use numbers::Refusal;
use std::io;

// The first n bytes of a map, each after a space, and the end of the line.
pub(crate) fn show_map(rt: &impl Print, map: &[u8], n: usize) -> io::Result<()> {
    for side in map.iter().take(n) {
        print!(rt; " {side}")?;
    }
    println!(rt)
}

pub(crate) fn show_refusal(rt: &impl Print, why: Refusal) -> io::Result<()> {
    print!(rt; " refused by {} at {}", why.reason.number(), why.place)
}

// An answer, or its refusal.
fn show_answer<T, F: FnOnce(T) -> io::Result<()>>(
    rt: &impl Print,
    answer: Result<T, Refusal>,
    show: F,
) -> io::Result<()>
    requires { (value : _) → F.pre show value }
{
    match answer {
        Ok(value) => show(value),
        Err(why) => show_refusal(rt, why),
    }
}

pub(crate) fn show_checked(rt: &impl Print, answer: Result<Counts, Refusal>) -> io::Result<()> {
    show_answer(rt, answer, |counts| {
        print!(rt; " accepted, atoms {}, rules {}", counts.atoms, counts.rules)
    })?;
    println!(rt)
}

pub(crate) fn show_opened(
    rt: &impl Print,
    answer: Result<Option<usize>, Refusal>,
) -> io::Result<()> {
    show_answer(rt, answer, |closed| match closed {
        Some(undecided) => print!(rt; " closed, undecided {undecided}"),
        None => print!(rt; " contradiction"),
    })?;
    print!(rt; ":")
}

pub(crate) fn show_tested(rt: &impl Print, answer: Result<bool, Refusal>) -> io::Result<()> {
    show_answer(rt, answer, |agrees| {
        print!(rt; " {}", if agrees { "yes" } else { "no" })
    })?;
    println!(rt)
}

pub(crate) fn show_margin(rt: &impl Print, answer: Result<i64, Refusal>) -> io::Result<()> {
    show_answer(rt, answer, |margin| print!(rt; " {margin}"))?;
    println!(rt)
}
