//! How a sum is made: one summand at a time, from any source.
ghost use Rattle.std.specs.Prelude.{◌≡◌, ◌+◌, ◌<◌, pos, ◌+ℤ◌};
ghost use Rattle.numbers.specs.Products.{summand_units};
ghost use Rattle.readings.specs.Sums.{accumulated, sum_value, Adds};

use crate::limbs::Natural;
use crate::sums::{Accumulator, CAPACITY, ExactSum};
use condensers::condenser::Condenser;
use numbers::piece::Summand;
use numbers::refusal::{Reason, Refusal};

impl Accumulator {
    /// The sum of nothing.
    pub fn new() -> Accumulator
        ensures value { accumulated result ≡ pos 0 }
        ensures count { result.taken ≡ 0 }
    {
        Accumulator {
            above: Natural::zero(),
            below: Natural::zero(),
            taken: 0,
        }
    }

    /// Adds a summand. It is refused, and nothing changes, where 65,536 were taken already.
    pub fn add(&mut self, summand: Summand) -> Result<(), Refusal>
        ensures after { Adds self.old summand self.new result }
    {
        if self.taken >= CAPACITY {
            return Err(Refusal::at(Reason::Full, 0));
        }
        self.place(summand);
        Ok(())
    }

    /// Adds a summand, which has room.
    fn place(&mut self, summand: Summand)
        requires { self.old.taken < CAPACITY }
        ensures count { self.new.taken ≡ self.old.taken + 1 }
        ensures value { accumulated self.new ≡ accumulated self.old +ℤ summand_units summand }
    {
        self.taken += 1;
        let shift = summand.rank();
        if summand.negative {
            self.below.add_shifted(summand.significand, shift);
        } else {
            self.above.add_shifted(summand.significand, shift);
        }
    }

    /// The sum of what was added.
    pub fn sum(&self) -> ExactSum
        ensures value { sum_value result ≡ accumulated self.now }
    {
        match self.above.checked_sub(&self.below) {
            Some(size) => ExactSum {
                negative: false,
                size,
            },
            None => ExactSum {
                negative: true,
                size: self.below.checked_sub(&self.above).unwrap(),
            },
        }
    }
}

/// What a condenser hands out, added up.
fn gathered<C: Condenser>(condenser: &C) -> Accumulator
    ensures value { accumulated result ≡ C.Condenser.total condenser.now }
{
    let mut sum = Accumulator::new();
    // an index loop: a condenser hands its summands out by number
    for k in 0..condenser.summand_count() {
        let summand = condenser.summand(k);
        if summand.significand != 0 {
            // never refused: a condenser hands out 4,096 summands at most
            let _ = sum.add(summand);
        }
    }
    sum
}

impl ExactSum {
    /// The exact sum of what a condenser hands out, which is its total.
    pub fn of<C: Condenser>(condenser: &C) -> ExactSum
        ensures value { sum_value result ≡ C.Condenser.total condenser.now }
    {
        gathered(condenser).sum()
    }
}
