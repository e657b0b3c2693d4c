// The whole sheet: accepted, or refused for the first reason in reading order.
ghost use Rattle.std.specs.Prelude.{◌≡◌};
ghost use Rattle.sheet.specs.Sheet.{edition_at, tail_at, rest_at, whole_at, sheet_read};

use super::Outline;
use super::rule::read_rules;
use numbers::{Reason, Refusal, Span, read_list, read_number, read_within};
use rules::{Atom, RuleNo};

// The longest sheet, in bytes.
pub const BYTES_MOST: usize = 65_536;

// The edition, which is 1.
#[tactic(auto, unfolding(crate::specs::Sheet::edition_at, numbers::specs::Answer::read_then, rules::specs::Sum::pick))]
fn read_edition(s: &[u8]) -> Result<Span, Refusal>
    ensures { result ≡ edition_at s.now }
{
    let got = read_number(s, 0);
    let Ok(edition) = got else {
        return got;
    };
    if edition.value == 1 {
        return got;
    }
    Err(Reason::Edition.at(0))
}

// The compute lists after the rules, and nothing more.
#[tactic(auto, unfolding(crate::specs::Sheet::tail_at, numbers::specs::Answer::read_then, rules::specs::Sum::pick))]
fn read_tail(s: &[u8], n: usize, rules: Span) -> Result<Outline, Refusal>
    ensures { result ≡ tail_at s.now n rules }
{
    let ins = read_list(s, 0, n, rules.next)?;
    let outs = read_list(s, 0, n, ins.next)?;
    if outs.next < s.len() {
        return Err(Reason::BytesLeft.at(outs.next));
    }
    Ok(Outline {
        atoms: n,
        rules,
        ins,
        outs,
    })
}

// The rule count at a place, the rules, and what comes after them.
#[tactic(auto, unfolding(crate::specs::Sheet::rest_at, rules::specs::Limits::rules_most, numbers::specs::Answer::read_then))]
fn read_rest(s: &[u8], n: usize, at: usize) -> Result<Outline, Refusal>
    ensures { result ≡ rest_at s.now n at }
{
    let count = read_within(s, 0, RuleNo::LAST, at)?;
    let rules = read_rules(s, n, count.value, count.next)?;
    read_tail(s, n, rules)
}

// The sheet in reading order.
#[tactic(auto, unfolding(crate::specs::Sheet::whole_at, rules::specs::Limits::atoms_most, numbers::specs::Answer::read_then))]
fn read_whole(s: &[u8]) -> Result<Outline, Refusal>
    ensures { result ≡ whole_at s.now }
{
    let edition = read_edition(s)?;
    let atoms = read_within(s, 0, Atom::LAST, edition.next)?;
    read_rest(s, atoms.value, atoms.next)
}

// A sheet: accepted, or its refusal.
#[tactic(auto, unfolding(crate::specs::Sheet::sheet_read, rules::specs::Limits::bytes_most, rules::specs::Sum::pick))]
pub fn read_sheet(s: &[u8]) -> Result<Outline, Refusal>
    ensures { result ≡ sheet_read s.now }
{
    if BYTES_MOST < s.len() {
        return Err(Reason::TooLong.at(BYTES_MOST));
    }
    read_whole(s)
}
