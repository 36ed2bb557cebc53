//! A piece as a binary64 number, a binary64 number as a summand, its place by exponent field and genus, and the exact sum of two numbers of one place.
ghost use Rattle.std.specs.Prelude.{◌≡◌, ◌+◌, ◌-◌, ◌*◌, ◌^◌, ◌<◌, ◌≤◌, T, ◌+ℤ◌, Some, to_bits};
ghost use Rattle.std.specs.Float.{binary64};
ghost use Rattle.std.specs.Float.Ieee.{add};
ghost use Rattle.numbers.specs.Patterns.{field_of};
ghost use Rattle.numbers.specs.Products.{piece_units};
ghost use Rattle.numbers.specs.Units.{rank, float_value};
ghost use Rattle.condensers.specs.Fields.{leading, significand_of, height_of};
ghost use Rattle.condensers.specs.Handed.{limited};
ghost use Rattle.condensers.specs.Pairing.{float_units, size, place_of, range_limit, summand_of};

use crate::finite::Finite;
use crate::units::summand_at;
use numbers::piece::{Piece, Summand};

/// The weight of the exponent field in a pattern.
const FIELD: u64 = 0x10_0000_0000_0000;

/// The pattern of the size of a piece other than zero.
fn pattern_of(piece: Piece) -> u64
    requires { 0 < piece.significand }
    ensures limits { (result < 2 ^ 63) × (field_of result < 2047) }
    ensures value { significand_of result * 2 ^ height_of result ≡ piece.significand * 2 ^ rank piece.exponent }
{
    let rank = Summand::from(piece).rank();
    let shift = (piece.significand.leading_zeros() - 11).min(rank);
    (rank - shift) as u64 * FIELD + (piece.significand << shift)
}

/// The binary64 number that has the piece's value.
impl From<Piece> for Finite {
    ghost from_gives = { λ piece f. float_value f.number ≡ Some (piece_units piece) };

    fn from(piece: Piece) -> Finite {
        if piece.significand == 0 {
            return Finite { number: 0.0 };
        }
        let size = f64::from_bits(pattern_of(piece));
        let number = if piece.negative { -size } else { size };
        Finite { number }
    }
}

/// The exponent field of a pattern.
fn exponent_field(bits: u64) -> u64
    ensures answer { result ≡ field_of bits }
    ensures limits { result < 2048 }
{
    bits / FIELD % 2048
}

impl Finite {
    /// The place of a number: two for every exponent field, one for each lowest fraction bit (the genus).
    pub(crate) fn place_of(self) -> usize
        ensures answer { result ≡ place_of self.number }
    {
        let bits = self.number.to_bits();
        (2 * exponent_field(bits) + bits % 2) as usize
    }
}

/// The sum of two numbers of one place by one binary64 addition, which is exact.
pub(crate) fn sum_of_pair(a: Finite, b: Finite) -> Finite
    requires paired { place_of a.number ≡ place_of b.number }
    requires within { size a.number + size b.number < range_limit }
    ensures answer { result.number ≡ add binary64 a.number b.number }
    ensures value { float_value result.number ≡ Some (float_units a.number +ℤ float_units b.number) }
{
    Finite {
        number: a.number + b.number,
    }
}

/// The bit in front of the fraction, by the exponent field.
fn leading_of(field: u64) -> u64
    ensures answer { result ≡ leading field }
    ensures limits { result ≤ 2 ^ 52 }
{
    if field == 0 { 0 } else { FIELD }
}

// no From: a number has a summand only within a summand's limits
/// The summand of what stands at a place: its sign, its significand and the exponent of its lowest bit. Exponent fields 0 and 1 weigh the same.
pub(crate) fn summand_of(entry: Finite) -> Summand
    requires { T (limited (significand_of (to_bits binary64 entry.number)) (height_of (to_bits binary64 entry.number))) }
    ensures answer { result ≡ summand_of entry.number }
{
    let bits = entry.number.to_bits();
    let field = exponent_field(bits);
    summand_at(
        entry.number.is_sign_negative(),
        leading_of(field) + bits % FIELD,
        field.saturating_sub(1) as u32,
    )
}
