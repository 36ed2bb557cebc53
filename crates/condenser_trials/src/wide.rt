//! A wide whole number of units: what a condenser's summands add up to, worked out here by itself.
use condensers::condenser::Condenser;
use numbers::piece::Summand;

const DIGITS: usize = 70;

/// One more than the largest digit.
const DIGIT: u128 = 0x1_0000_0000;

/// Digits of 32 bits, lowest first, of a number modulo 2^2240, which no sum of summands reaches.
#[derive(Drop, PartialEq, Eq)]
pub(crate) struct Wide {
    digits: [i64; DIGITS],
}

impl Wide {
    /// The sum of what a condenser hands out.
    pub(crate) fn of<C: Condenser>(condenser: &C) -> Wide {
        let mut wide = Wide {
            digits: [0; DIGITS],
        };
        // by number, as a condenser hands them out
        for k in 0..condenser.summand_count() {
            wide.add(condenser.summand(k));
        }
        wide.carry();
        wide
    }

    fn add(&mut self, summand: Summand) {
        let rank = summand.rank();
        let size = (summand.significand as u128) << (rank % 32);
        let parts = [
            (size % DIGIT) as i64,
            (size / DIGIT % DIGIT) as i64,
            (size / DIGIT / DIGIT % DIGIT) as i64,
        ];
        let digits = self.digits.iter_mut().skip((rank / 32) as usize);
        for (digit, part) in digits.zip(parts) {
            *digit = if summand.negative {
                digit.wrapping_sub(part)
            } else {
                digit.wrapping_add(part)
            };
        }
    }

    /// Brings every digit below 2^32.
    fn carry(&mut self) {
        let mut carried: i64 = 0;
        for digit in self.digits.iter_mut() {
            let sum = digit.wrapping_add(carried);
            *digit = sum & 0xffff_ffff;
            carried = sum >> 32;
        }
    }

    pub(crate) fn is_zero(&self) -> bool {
        self.digits.iter().all(|digit| *digit == 0)
    }
}
