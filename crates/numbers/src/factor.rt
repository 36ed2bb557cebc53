//! A factor: what an accepted element becomes.
ghost use Rattle.std.specs.Prelude.{◌≡◌, ◌^◌, ◌<◌, false, pos, negsuc, ◌≤ℤ◌};

/// The number ±significand × 2^exponent, negative where `negative` is set.
#[derive(Clone, Copy, PartialEq, Eq, Debug)]
pub struct Factor {
    pub negative: bool,
    pub significand: u32,
    pub exponent: i32,
    ghost short: { significand < 2 ^ 26 },
    ghost low: { negsuc 535 ≤ℤ exponent },
    ghost high: { exponent ≤ℤ pos 458 },
    ghost plus: { significand ≡ 0 → negative ≡ false },
    ghost plain: { significand ≡ 0 → exponent ≡ pos 0 },
}
