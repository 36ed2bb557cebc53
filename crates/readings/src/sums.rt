//! The exact sum of summands, on its way and when it is whole. A size counts in units of 2^-1074.
ghost use Rattle.std.specs.Prelude.{◌≡◌, ◌*◌, ◌≤◌, false};
ghost use Rattle.std.specs.Float.{binary64};
ghost use Rattle.readings.specs.Formats.{largest};
ghost use Rattle.readings.specs.Limbs.{natural, summand_limit};
ghost use Rattle.readings.specs.declared.sums.TheConstants.{CAPACITY};

use crate::limbs::Natural;

/// How many summands a sum on its way takes.
pub(crate) const CAPACITY: u32 = 65_536;

/// A sum on its way: the summands above zero, the sizes of those below zero, and how many were taken, 65,536 at most.
#[derive(Clone, Copy)]
pub struct Accumulator {
    pub(crate) above: Natural,
    pub(crate) below: Natural,
    pub(crate) taken: u32,
    ghost few: { taken ≤ CAPACITY },
    ghost above_bounded: { natural above.limbs ≤ taken * summand_limit },
    ghost below_bounded: { natural below.limbs ≤ taken * summand_limit },
}

/// A whole sum: its sign and its size, which is within binary64. Zero has a plus.
#[derive(Clone, Copy)]
pub struct ExactSum {
    pub(crate) negative: bool,
    pub(crate) size: Natural,
    ghost bounded: { natural size.limbs ≤ largest binary64 },
    ghost plus: { natural size.limbs ≡ 0 → negative ≡ false },
}
