// The coding of the calls' answers: top * 2^40 + value.
ghost use Rattle.std.specs.Prelude.{◌≡◌};
ghost use Rattle.archive.specs.Code.{coded as code_of, counts as counts_of, raised as raised_of, code_refusal, code_found, code_checked, code_opened, code_solved, code_tested, code_margin, code_part};

use desk::{Counts, Solved};
use numbers::Refusal;

// How many tops and values there are. The tops stay numbers: the C interface (include/archive.h) names them so.
const TOPS: u64 = 0x100_0000;

const VALUES: u64 = 0x100_0000_0000;

const COUNTS: u64 = 0x1_0000;

// What is added to a margin, so that none is below 0.
const RAISE: u64 = 0x1_0000_0000;

const ACCEPTED: u64 = 32;

const CLOSED: u64 = 33;

const CONTRADICTION: u64 = 34;

const MODEL: u64 = 35;

const NO_MODEL: u64 = 36;

const YES: u64 = 37;

const NO: u64 = 38;

const MARGIN: u64 = 39;

const PART: u64 = 40;

const NOTHING: u64 = 41;

#[tactic(auto, unfolding(crate::specs::Code::coded))]
fn code(top: u64, value: u64) -> u64
    ensures { result ≡ code_of top value }
{
    top % TOPS * VALUES + value % VALUES
}

#[tactic(auto, unfolding(crate::specs::Code::counts))]
fn counts(n: u64, rules: u64) -> u64
    ensures { result ≡ counts_of n rules }
{
    n % COUNTS * COUNTS + rules % COUNTS
}

#[tactic(auto, unfolding(crate::specs::Code::raised))]
fn raised(margin: i64) -> u64
    ensures { result ≡ raised_of margin }
{
    RAISE.saturating_add_signed(margin)
}

fn of_refusal(why: Refusal) -> u64
    ensures { result ≡ code_refusal why }
{
    code(why.reason.number() as u64, why.place as u64)
}

// A number under a top of its own, and nothing under another.
fn of_found(found: Option<usize>, top: u64, nothing: u64) -> u64
    ensures { result ≡ code_found top nothing found }
{
    match found {
        Some(value) => code(top, value as u64),
        None => code(nothing, 0),
    }
}

pub(crate) fn of_checked(answer: Result<Counts, Refusal>) -> u64
    ensures { result ≡ code_checked answer }
{
    answer.map_or_else(of_refusal, |read| {
        code(ACCEPTED, counts(read.atoms as u64, read.rules as u64))
    })
}

pub(crate) fn of_opened(answer: Result<Option<usize>, Refusal>) -> u64
    ensures { result ≡ code_opened answer }
{
    answer.map_or_else(of_refusal, |undecided| {
        of_found(undecided, CLOSED, CONTRADICTION)
    })
}

pub(crate) fn of_solved(answer: Result<Solved, Refusal>) -> u64
    ensures { result ≡ code_solved answer }
{
    answer.map_or_else(of_refusal, |found| match found {
        Solved::Model => code(MODEL, 0),
        Solved::NoModel => code(NO_MODEL, 0),
    })
}

pub(crate) fn of_tested(answer: Result<bool, Refusal>) -> u64
    ensures { result ≡ code_tested answer }
{
    answer.map_or_else(of_refusal, |stable| code(if stable { YES } else { NO }, 0))
}

pub(crate) fn of_margin(answer: Result<i64, Refusal>) -> u64
    ensures { result ≡ code_margin answer }
{
    answer.map_or_else(of_refusal, |margin| code(MARGIN, raised(margin)))
}

pub(crate) fn of_part(answer: Result<Option<usize>, Refusal>) -> u64
    ensures { result ≡ code_part answer }
{
    answer.map_or_else(of_refusal, |value| of_found(value, PART, NOTHING))
}
