//! A piece: the product of two factors, as a condenser takes it. A summand: a piece as a condenser hands it out.
ghost use Rattle.std.specs.Prelude.{◌≡◌, ◌*◌, ◌^◌, ◌<◌, ◌≤◌, false, pos, negsuc, ◌≤ℤ◌};
ghost use Rattle.numbers.specs.Units.{rank};

/// The number ±significand × 2^exponent that a product gives and a condenser takes.
#[derive(Clone, Copy, PartialEq, Eq, Debug)]
pub struct Piece {
    pub negative: bool,
    pub significand: u64,
    pub exponent: i32,
    ghost short: { significand ≤ 2 ^ 52 },
    ghost low: { negsuc 1071 ≤ℤ exponent },
    ghost high: { exponent ≤ℤ pos 916 },
    ghost plus: { significand ≡ 0 → negative ≡ false },
    ghost plain: { significand ≡ 0 → exponent ≡ pos 0 },
}

/// The number ±significand × 2^exponent that a condenser hands out, at most 2^1006 in size.
// not one struct with Piece and Factor: each has limits of its own, and a struct has one invariant
#[derive(Clone, Copy, PartialEq, Eq, Debug)]
pub struct Summand {
    pub negative: bool,
    pub significand: u64,
    pub exponent: i32,
    ghost short: { significand < 2 ^ 53 },
    ghost low: { negsuc 1073 ≤ℤ exponent },
    ghost high: { exponent ≤ℤ pos 1006 },
    ghost bounded: { significand * 2 ^ rank exponent ≤ 2 ^ rank (pos 1006) },
    ghost plus: { significand ≡ 0 → negative ≡ false },
    ghost plain: { significand ≡ 0 → exponent ≡ pos 0 },
}
