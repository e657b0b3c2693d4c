// An accepted sheet, decoded into a table: one row for each rule, however often it stands, and one for the compute lists, and their heads
// and literals as pairs.
#![tactic(auto)]

ghost use Rattle.decode.specs.Inner.Decode.{Decodable, Decoded};

mod pairs;
mod rows;
mod words;

use numbers::Span;
use pairs::Reached;
use rows::{end_rows, write_rest, write_rules};
use rules::Kind;
use sheet::{BYTES_MOST, Outline};
use table::PAIR;

// How many words the table of any sheet needs: a pair for each byte, and one more.
pub const WORDS: usize = PAIR * (BYTES_MOST + 1);

// Most sheets are short: so many bytes, and how many words the table of so short a sheet needs. A table is blank at first, which takes
// time for each word.
pub const FEW_BYTES: usize = 1_024;

pub const FEW_WORDS: usize = PAIR * (FEW_BYTES + 1);

pub const SOME_BYTES: usize = 4_096;

pub const SOME_WORDS: usize = PAIR * (SOME_BYTES + 1);

pub const MANY_BYTES: usize = 16_384;

pub const MANY_WORDS: usize = PAIR * (MANY_BYTES + 1);

pub const LARGE_BYTES: usize = 32_768;

pub const LARGE_WORDS: usize = PAIR * (LARGE_BYTES + 1);

// How many rules a table holds, and the row of the rule that was asked for.
#[derive(Clone, Copy, Debug, PartialEq, Eq)]
pub struct Contents {
    pub rules: usize,
    pub row: usize,
}

// Write an accepted sheet as a table: each of its numbers is taken once, and none can be refused. The table holds each rule once; wanted is
// the index, on the sheet, of a rule whose row is asked for. The compute lists are written as the body of a choice with no heads, which gives and
// forces nothing.
pub fn decode(s: &[u8], sheet: Outline, wanted: usize, code: &mut [u32]) -> Contents
    requires { Decodable s.now sheet code.old }
    ensures { Decoded s.now sheet wanted code.old code.new result }
{
    let rules = write_rules(s, sheet, wanted, code);
    let unbound = Span::new(0, rules.next, rules.next);
    let start = Reached {
        pair: rules.pair,
        next: rules.next,
        mark: 0,
    };
    let lists = write_rest(
        s,
        Kind::Choice,
        unbound,
        code,
        rules.count,
        rules.pair,
        start,
    );
    end_rows(code, rules.count + 1, lists.pair);
    Contents {
        rules: rules.count,
        row: rules.row,
    }
}
