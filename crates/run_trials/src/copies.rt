//! A sum, on its way and whole, is copied where it is passed by value and used again.
use numbers::piece::{Piece, Summand};
use readings::forms::Direction;
use readings::sums::{Accumulator, ExactSum};

/// What was added so far, as a pattern.
fn so_far(sum: Accumulator) -> u64 {
    sum.sum().long(Direction::Nearest)
}

/// The whole sum as a pattern.
fn whole(sum: ExactSum) -> u64 {
    sum.long(Direction::Nearest)
}

#[test]
fn sums_are_passed_by_value_twice(rt: HostRuntime) {
    // the pattern of 1
    let one = 0x3ff0_0000_0000_0000;
    let mut sum = Accumulator::new();
    let empty = sum;
    let added = sum.add(Summand::from(Piece {
        negative: false,
        significand: 1,
        exponent: 0,
    }));
    assert_eq!(rt; added, Ok(()));
    assert_eq!(rt; (so_far(sum), so_far(sum)), (one, one));
    let all = sum.sum();
    assert_eq!(rt; (whole(all), whole(all)), (one, one));
    assert_eq!(rt; so_far(empty), 0);
}
