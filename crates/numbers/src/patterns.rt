//! The kind of binary64 patterns.
ghost use Rattle.std.specs.Prelude.{◌≡◌, ◌^◌, ◌<◌, ◌&&◌, ◌==◌, from_bits};
ghost use Rattle.std.specs.Float.{binary64};
ghost use Rattle.numbers.specs.Acceptance.{Answers};
ghost use Rattle.numbers.specs.Patterns.{sign_of, field_of, fraction_of, pattern_value, PatternMade, ExponentOf, SignificandOf};
ghost use Rattle.numbers.specs.Units.{float_value};

use crate::factor::Factor;
use crate::kind::Kind;
use crate::refusal::Reason;

/// Binary64 patterns of IEEE 754.
#[derive(Drop)]
pub struct Patterns;

impl Kind for Patterns {
    type Element = u64;

    const LETTER: u8 = b'p';

    const WIDTH: u32 = 64;

    ghost LETTER = { 112 };

    ghost WIDTH = { 64 };

    ghost value = { pattern_value };

    fn factor(element: u64) -> Result<Factor, Reason>
        ensures answer { Answers (pattern_value element) result }
        ensures made { PatternMade element result }
        ensures value { pattern_value element ≡ float_value (from_bits binary64 element) }
    {
        let parts = Parts::from(element);
        if parts.is_zero() {
            return Ok(Factor::ZERO);
        }
        let exponent = parts.exponent()?;
        let significand = parts.significand()?;
        Ok(Factor {
            negative: parts.negative,
            significand,
            exponent,
        })
    }
}

/// A pattern taken apart.
// the tables and the readings take patterns apart for other ends, where they are finite: one public function would need a precondition
#[derive(Clone, Copy)]
struct Parts {
    negative: bool,
    field: u64,
    fraction: u64,
}

/// The sign, the exponent field and the fraction of a pattern.
impl From<u64> for Parts {
    ghost from_gives = { λ pattern p. (p.negative ≡ sign_of pattern) × (p.field ≡ field_of pattern) × (p.fraction ≡ fraction_of pattern) };

    fn from(pattern: u64) -> Parts {
        Parts {
            negative: pattern >= 1 << 63,
            field: (pattern >> 52) % (1 << 11),
            fraction: pattern % (1 << 52),
        }
    }
}

impl Parts {
    /// Whether these are the parts of +0 or -0.
    fn is_zero(self) -> bool
        ensures answer { result ≡ (self.field == 0 && self.fraction == 0) }
    {
        self.field == 0 && self.fraction == 0
    }

    /// The exponent of the factor, or why a pattern outside the window is refused.
    fn exponent(self) -> Result<i32, Reason>
        ensures answer { ExponentOf self.field result }
    {
        // one test for what lies inside the window: every pattern takes it
        if self.field < 512 || self.field > 1506 {
            return Err(if self.field == 2047 {
                Reason::NotFinite
            } else {
                Reason::NotFactor
            });
        }
        Ok(self.field as i32 - 1048)
    }

    /// The significand of the factor; a fraction with bits below it is refused.
    fn significand(self) -> Result<u32, Reason>
        requires limits { self.fraction < 2 ^ 52 }
        ensures answer { SignificandOf self.fraction result }
    {
        if self.fraction % (1 << 27) != 0 {
            return Err(Reason::NotFactor);
        }
        Ok((1 << 25) + (self.fraction >> 27) as u32)
    }
}
