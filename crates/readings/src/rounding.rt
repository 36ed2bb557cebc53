//! How a size is rounded: the kept digits, what is left below them, and the carry.
ghost use Rattle.std.specs.Prelude.{◌≡◌, ◌+◌, ◌-◌, ◌*◌, ◌%◌, ◌^◌, ◌<◌, ◌≤◌};
ghost use Rattle.std.specs.Float.Ieee.{hid};
ghost use Rattle.readings.specs.Formats.{format_of};
ghost use Rattle.readings.specs.Limbs.{natural};
ghost use Rattle.readings.specs.Rounded.{mode_of, remainder_of, tie_carry, carry, size_pattern};

use crate::forms::{Direction, Width};
use crate::limbs::Natural;

/// What becomes of a size that is no number of the format.
#[derive(Clone, Copy)]
pub(crate) enum Mode {
    /// The number below it.
    Cut,
    /// The number above it.
    Raise,
    /// The nearer of the two.
    Near,
}

/// What is left below the last kept digit, against one half of that digit's weight.
#[derive(Clone, Copy)]
pub(crate) enum Remainder {
    Nothing,
    BelowHalf,
    Half,
    AboveHalf,
}

/// What a direction does to the size of a number of this sign.
pub(crate) fn size_mode(direction: Direction, negative: bool) -> Mode
    ensures answer { result ≡ mode_of direction negative }
{
    match direction {
        Direction::Nearest => Mode::Near,
        Direction::TowardZero => Mode::Cut,
        Direction::Up => if negative { Mode::Cut } else { Mode::Raise },
        Direction::Down => if negative { Mode::Raise } else { Mode::Cut },
    }
}

/// What is left of the number below the bit `cut`.
fn left_below(size: &Natural, cut: u32) -> Remainder
    ensures answer { result ≡ remainder_of (natural size.now.limbs % 2 ^ cut) (2 ^ cut) }
{
    if cut == 0 {
        return Remainder::Nothing;
    }
    let half = size.bits_from(cut - 1) % 2 == 1;
    let rest = size.any_below(cut - 1);
    match (half, rest) {
        (true, true) => Remainder::AboveHalf,
        (true, false) => Remainder::Half,
        (false, true) => Remainder::BelowHalf,
        (false, false) => Remainder::Nothing,
    }
}

/// The carry of a tie into the kept digits: away from zero, so always one.
fn tie_carry(_kept: u64) -> u64
    ensures answer { result ≡ tie_carry _kept }
    ensures limits { result ≤ 1 }
{
    1
}

/// The carry into the kept digits.
fn carry_into(mode: Mode, kept: u64, left: Remainder) -> u64
    ensures answer { result ≡ carry mode kept left }
    ensures limits { result ≤ 1 }
{
    match (mode, left) {
        (Mode::Cut, _) => 0,
        (Mode::Raise, Remainder::Nothing) => 0,
        (Mode::Raise, _) => 1,
        (Mode::Near, Remainder::Nothing | Remainder::BelowHalf) => 0,
        (Mode::Near, Remainder::Half) => tie_carry(kept),
        (Mode::Near, Remainder::AboveHalf) => 1,
    }
}

/// The digits behind the dropped ones in the exponent's field, where a carry out of the digits adds one.
fn joined(width: Width, dropped: u64, digits: u64) -> u64
    requires { dropped * hid (format_of width) + digits < 2 ^ 64 }
    ensures answer { result ≡ dropped * hid (format_of width) + digits }
{
    dropped * width.leading_digit() + digits
}

/// The pattern of a size, without a sign. The exponent's field counts the dropped digits; the leading digit adds one to it, and so does a carry
/// out of the digits.
pub(crate) fn size_pattern(size: &Natural, width: Width, mode: Mode) -> u64
    ensures answer { result ≡ size_pattern (format_of width) mode (natural size.now.limbs) }
{
    let precision = width.precision();
    let lowest = width.lowest();
    let dropped = size.bit_length().saturating_sub(lowest + precision);
    let cut = lowest + dropped;
    let kept = size.bits_from(cut);
    let carry = carry_into(mode, kept, left_below(size, cut));
    joined(width, dropped as u64, kept + carry)
}
