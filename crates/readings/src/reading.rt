//! Readings: an exact sum as a pattern in a form.
ghost use Rattle.std.specs.Prelude.{◌≡◌, ◌+◌, ◌*◌, ◌%◌, ◌^◌, ◌<◌, ◌≤◌, ℤ, if◌then◌else◌, nat_le, nat_lt};
ghost use Rattle.std.specs.Float.{binary32, binary64};
ghost use Rattle.std.specs.Float.Ieee.{top};
ghost use Rattle.numbers.specs.Units.{signed};
ghost use Rattle.readings.specs.Formats.{Encodes, format_of, largest};
ghost use Rattle.readings.specs.Limbs.{natural};
ghost use Rattle.readings.specs.Readings.{Reads, ReadsIn};
ghost use Rattle.readings.specs.Rounding.{Rounds};
ghost use Rattle.readings.specs.Sums.{sum_value};
ghost use Rattle.readings.specs.declared.forms.Width.TheVariants.{Short};

use crate::forms::{Direction, Form, LONG_LEADING_DIGIT, LONG_SIGN_BIT, Width};
use crate::limbs::Natural;
use crate::rounding::{size_mode, size_pattern};
use crate::sums::ExactSum;
use condensers::condenser::Condenser;
use numbers::refusal::{Reason, Refusal};

/// The binary64 pattern of the largest binary32 number.
const SHORT_LARGEST: u64 = 0x47ef_ffff_e000_0000;

/// The significand of a binary64 pattern, and the power of two that it counts in, where the size is within binary32.
// a pattern taken apart once more: a public function of `numbers` for this would need a precondition
fn significand_of(pattern: u64) -> (u64, u32)
    requires { pattern % 2 ^ 63 ≤ SHORT_LARGEST }
    ensures value { Encodes binary64 pattern (signed (nat_le (2 ^ 63) pattern) (result.0 * 2 ^ result.1)) }
    ensures limits { (result.1 < 2048) × (result.0 * 2 ^ result.1 ≤ largest binary32) }
{
    let digits = pattern % LONG_LEADING_DIGIT;
    let field = pattern % LONG_SIGN_BIT / LONG_LEADING_DIGIT;
    if field == 0 {
        return (digits, 0);
    }
    (LONG_LEADING_DIGIT + digits, (field - 1) as u32)
}

/// The number that a binary64 pattern stands for, where its size is within binary32.
fn pattern_sum(pattern: u64) -> ExactSum
    requires { pattern % 2 ^ 63 ≤ SHORT_LARGEST }
    ensures value { Encodes binary64 pattern (sum_value result) }
    ensures limits { natural result.size.limbs ≤ largest binary32 }
{
    let (significand, shift) = significand_of(pattern);
    let mut size = Natural::zero();
    size.add_shifted(significand, shift);
    ExactSum {
        negative: pattern > LONG_SIGN_BIT,
        size,
    }
}

/// The pattern of a size with its sign.
fn with_sign(width: Width, negative: bool, size: u64) -> u64
    requires { top (format_of width) + size < 2 ^ 64 }
    ensures answer { result ≡ (if negative then top (format_of width) else 0) + size }
{
    if negative {
        width.sign_bit() + size
    } else {
        size
    }
}

/// Whether a binary64 pattern is larger in size than every binary32 number.
fn passes_short(pattern: u64) -> bool
    ensures answer { result ≡ nat_lt SHORT_LARGEST (pattern % 2 ^ 63) }
{
    pattern % LONG_SIGN_BIT > SHORT_LARGEST
}

/// A long reading rounded once more, to binary32, in the same direction.
fn shortened(long: u64, direction: Direction) -> Result<u64, Refusal>
    ensures answer { (x : ℤ) → Rounds binary64 direction x long → ReadsIn Short direction x result }
{
    if passes_short(long) {
        return Err(Refusal::at(Reason::ShortRange, 0));
    }
    Ok(pattern_sum(long).pattern(Width::Short, direction))
}

impl ExactSum {
    /// The pattern of the sum in a width that has room for it.
    fn pattern(&self, width: Width, direction: Direction) -> u64
        requires { natural self.now.size.limbs ≤ largest (format_of width) }
        ensures answer { Rounds (format_of width) direction (sum_value self.now) result }
    {
        let size = size_pattern(&self.size, width, size_mode(direction, self.negative));
        with_sign(width, self.negative, size)
    }

    /// The long reading: the sum rounded to binary64. It is always a finite number.
    pub fn long(&self, direction: Direction) -> u64
        ensures answer { Rounds binary64 direction (sum_value self.now) result }
    {
        self.pattern(Width::Long, direction)
    }

    /// The short reading: the long reading rounded once more, to binary32, in the same direction.
    pub fn short(&self, direction: Direction) -> Result<u64, Refusal>
        ensures answer { ReadsIn Short direction (sum_value self.now) result }
    {
        shortened(self.long(direction), direction)
    }

    /// The reading in a form.
    pub fn read(&self, form: Form) -> Result<u64, Refusal>
        ensures answer { Reads form (sum_value self.now) result }
    {
        match form.width {
            Width::Long => Ok(self.long(form.direction)),
            Width::Short => self.short(form.direction),
        }
    }
}

/// The reading of a condenser's total in a form.
pub fn read_total<C: Condenser>(condenser: &C, form: Form) -> Result<u64, Refusal>
    ensures answer { Reads form (C.Condenser.total condenser.now) result }
{
    ExactSum::of(condenser).read(form)
}
