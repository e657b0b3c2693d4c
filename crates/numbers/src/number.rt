// The numbers of a sheet, each at a place of its bytes.
ghost use Rattle.std.specs.Prelude.{◌≡◌};
ghost use Rattle.numbers.specs.Number.{number_at, within_at, taken_at};

use super::{Reason, Refusal, Span};

// The number at a place: its groups, low group first.
pub fn read_number(s: &[u8], first: usize) -> Result<Span, Refusal>
    ensures { result ≡ number_at s.now first }
{
    if s.len() <= first {
        return Err(Reason::EndsEarly.at(s.len()));
    }
    let byte = usize::from(s[first]);
    let is_short = byte < 128;
    if is_short {
        return Ok(Span::new(byte, first, first + 1));
    }
    let mut sum: usize = byte - 128;
    let mut scale: usize = 128;
    for at in first + 1..first + 4 {
        if s.len() <= at {
            return Err(Reason::EndsEarly.at(s.len()));
        }
        let group = usize::from(s[at]);
        sum += group % 128 * scale;
        if group < 128 {
            let is_needless = group == 0;
            if is_needless {
                return Err(Reason::NotShortest.at(first));
            }
            return Ok(Span::new(sum, first, at + 1));
        }
        scale *= 128;
    }
    Err(Reason::FourthByte.at(first))
}

// The number at a place where one was read before: nothing is refused. Its groups count 1, 128, 16,384 and 2,097,152.
// Kept without a loop and apart from `read_number`: as a loop it was tried, and took 1.3 times as long over numbers of one byte.
pub fn take_number(s: &[u8], first: usize) -> Span
    ensures { result ≡ taken_at s.now first }
{
    if s.len() <= first {
        return Span::new(0, first, first);
    }
    let low = usize::from(s[first]);
    let second = first + 1;
    if low < 128 {
        return Span::new(low, first, second);
    }
    let one = low - 128;
    if s.len() <= second {
        return Span::new(one, first, second);
    }
    let group = usize::from(s[second]);
    let two = one + group % 128 * 128;
    let third = second + 1;
    if group < 128 {
        return Span::new(two, first, third);
    }
    if s.len() <= third {
        return Span::new(two, first, third);
    }
    let above = usize::from(s[third]);
    let three = two + above % 128 * 16_384;
    let fourth = third + 1;
    if above < 128 {
        return Span::new(three, first, fourth);
    }
    if s.len() <= fourth {
        return Span::new(three, first, fourth);
    }
    let top = usize::from(s[fourth]);
    Span::new(three + top % 128 * 2_097_152, first, fourth + 1)
}

// The number at a place, where it is one of `least` to `most`.
#[tactic(auto, unfolding(crate::specs::Number::within_at, crate::specs::Answer::read_then, rules::specs::Sum::pick))]
pub fn read_within(s: &[u8], least: usize, most: usize, at: usize) -> Result<Span, Refusal>
    ensures { result ≡ within_at s.now least most at }
{
    let got = read_number(s, at);
    let Ok(number) = got else {
        return got;
    };
    if number.value < least || most < number.value {
        return Err(Reason::OutsideLimits.at(at));
    }
    got
}
