//! Worked cases of factors and pieces, run.
use crate::counts::Counts;
use crate::factor::Factor;
use crate::kind::Kind;
use crate::patterns::Patterns;
use crate::piece::Piece;
use crate::refusal::Reason;
use std::test::Fail;

// numbers, so that the codes themselves are compared
/// An answer in numbers: its code, 0 where the element is accepted, and the factor's sign, significand and exponent.
fn numbers_of(answer: Result<Factor, Reason>) -> (u64, bool, u32, i32) {
    match answer {
        Ok(factor) => (0, factor.negative, factor.significand, factor.exponent),
        Err(reason) => (reason.code(), false, 0, 0),
    }
}

#[test]
fn patterns_are_answered(rt: HostRuntime) {
    let cases = [
        (0x2000000000000000, (0, false, 33_554_432, -536)),
        (0x5e2ffffff8000000, (0, false, 67_108_863, 458)),
        (0x1ffffffff8000000, (2, false, 0, 0)),
        (0x5e30000000000000, (2, false, 0, 0)),
        (0x3ff0000004000000, (2, false, 0, 0)),
        (0x7ff8000000000000, (1, false, 0, 0)),
        (0x0000000000000000, (0, false, 0, 0)),
        (0x8000000000000000, (0, false, 0, 0)),
    ];
    for (element, expected) in cases {
        assert_eq!(rt; numbers_of(Patterns::factor(element)), expected);
    }
}

#[test]
fn counts_are_answered(rt: HostRuntime) {
    let cases = [
        (67_108_863, (0, false, 67_108_863, 0)),
        (67_108_864, (0, false, 33_554_432, 1)),
        (67_108_865, (2, false, 0, 0)),
        (-2_147_483_648, (0, true, 33_554_432, 6)),
    ];
    for (element, expected) in cases {
        assert_eq!(rt; numbers_of(Counts::factor(element)), expected);
    }
}

#[test]
fn pieces_are_made(rt: HostRuntime) -> Result<(), Fail> {
    let largest = Counts::factor(67_108_863)?;
    let square = largest.times(largest);
    assert_eq!(rt;
        (square.negative, square.significand, square.exponent),
        (false, 4_503_599_493_152_769, 0)
    );
    assert_eq!(rt; Factor::ZERO.times(largest), Piece::ZERO);
    assert_eq!(rt; Piece::ZERO.opposite(), Piece::ZERO);
    Ok(())
}
