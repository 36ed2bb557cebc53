//! Summands by how far their lowest bit lies above the unit of 2^-1074.
ghost use Rattle.std.specs.Prelude.{◌≡◌, T};
ghost use Rattle.condensers.specs.Handed.{limited, summand_at};

use numbers::piece::Summand;

/// The summand ±significand × 2^rank units; zero has a plus sign and exponent 0.
// three parameters: they are the parts that make a summand
pub(crate) fn summand_at(negative: bool, significand: u64, rank: u32) -> Summand
    requires { T (limited significand rank) }
    ensures answer { result ≡ summand_at negative significand rank }
{
    if significand == 0 {
        return Summand::ZERO;
    }
    Summand {
        negative,
        significand,
        exponent: rank as i32 - 1074,
    }
}
