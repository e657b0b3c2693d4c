// Why a sheet or a call is refused: each reason by its name, with its number and the sentence for it.
ghost use Rattle.std.specs.Prelude.{◌≡◌};
ghost use Rattle.numbers.specs.Answer.{reason_number, refusal};

use super::Refusal;

#[derive(Clone, Copy, Debug, PartialEq, Eq)]
pub enum Reason {
    // "sheet ends inside or before a number that is due", at the sheet's length
    EndsEarly = 1,
    // "a number not in its shortest form", at its first byte
    NotShortest = 2,
    // "edition not 1", at its first byte
    Edition = 3,
    // a count or a weight "outside its limits", at its first byte
    OutsideLimits = 4,
    // "kind not 1, 2, 3, 5", at its first byte
    UnknownKind = 5,
    // "atom 0 or above n on the sheet", at its first byte
    NoAtom = 6,
    // "list not strictly increasing", at the later atom
    NotIncreasing = 7,
    // "bytes after the compute-out list", at the first such byte
    BytesLeft = 8,
    // "sheet longer than 65,536 bytes", at 65,536
    TooLong = 9,
    // "map shorter than n", at 0
    MapTooShort = 10,
    // "pinned atom 0 or above n, or side not 1 or 2", at 0
    BadPin = 11,
    // "map byte not allowed", at its index
    BadMapByte = 12,
    // "rule number 0 or above the rule count", at 0
    NoRule = 13,
    // "margin asked on a contradiction", at 0
    MarginOnContradiction = 14,
    // "a fourth byte with its top bit set", at the number's first byte
    FourthByte = 15,
    // "a constraint or weight rule whose need is above the sum of its own weights", at the bound's first byte
    BoundTooHigh = 16,
}

impl Reason {
    // The number of the refusal.
    pub fn number(self) -> usize
        ensures { result ≡ reason_number self }
    {
        self as usize
    }

    // The refusal for this reason, at a place.
    pub fn at(self, place: usize) -> Refusal
        ensures { result ≡ refusal self place }
    {
        Refusal {
            reason: self,
            place,
        }
    }
}
