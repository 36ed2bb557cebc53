//! The kind of counts: signed whole numbers.
ghost use Rattle.std.specs.Prelude.{◌≡◌, ◌+◌, ◌*◌, ◌%◌, ◌^◌, ◌≤◌, MatchResult, nat_lt, unsigned_abs};
ghost use Rattle.numbers.specs.Acceptance.{Answers};
ghost use Rattle.numbers.specs.Refusals.{code_of};
ghost use Rattle.numbers.specs.Counts.{count_value, is_negative, CountMade};

use crate::factor::Factor;
use crate::kind::Kind;
use crate::refusal::Reason;

/// Signed whole numbers of 32 bits.
#[derive(Drop)]
pub struct Counts;

impl Kind for Counts {
    type Element = i32;

    const LETTER: u8 = b'c';

    const WIDTH: u32 = 32;

    ghost LETTER = { 99 };

    ghost WIDTH = { 32 };

    ghost value = { count_value };

    fn factor(element: i32) -> Result<Factor, Reason>
        ensures answer { Answers (count_value element) result }
        ensures made { CountMade element result }
    {
        let mut halved = Halved::from(element);
        while !halved.is_short() {
            halved = halved.halve()?;
        }
        Ok(Factor {
            negative: halved.negative,
            significand: halved.size,
            exponent: halved.halvings as i32,
        })
    }
}

/// A count as ±size × 2^halvings.
// halved step by step, as the rule says it: the halvings are needed beside the size
#[derive(Clone, Copy)]
struct Halved {
    negative: bool,
    size: u32,
    halvings: u8,
}

/// A count that was not halved yet.
impl From<i32> for Halved {
    ghost from_gives = { λ count h. (h.negative ≡ is_negative count) × (h.size ≡ unsigned_abs count) × (h.halvings ≡ 0) × (h.size ≤ 2 ^ 31) };

    fn from(count: i32) -> Halved {
        Halved {
            negative: count < 0,
            size: count.unsigned_abs(),
            halvings: 0,
        }
    }
}

impl Halved {
    /// Whether the size is below 2^26, as a significand is.
    fn is_short(self) -> bool
        ensures answer { result ≡ nat_lt self.size (2 ^ 26) }
    {
        self.size < 1 << 26
    }

    /// The same count, its size halved once more; it is refused where that would leave a remainder.
    fn halve(self) -> Result<Halved, Reason>
        requires limits { self.halvings ≤ 6 }
        ensures answer { MatchResult result (λ h. (h.negative ≡ self.negative) × (self.size ≡ 2 * h.size) × (h.halvings ≡ self.halvings + 1)) (λ reason. (self.size % 2 ≡ 1) × (code_of reason ≡ 2)) }
    {
        if self.size % 2 != 0 {
            return Err(Reason::NotFactor);
        }
        Ok(Halved {
            negative: self.negative,
            size: self.size / 2,
            halvings: self.halvings + 1,
        })
    }
}
