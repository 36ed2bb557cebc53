//! The zero summand, the summand of a piece, and how far a summand lies above the unit.
ghost use Rattle.std.specs.Prelude.{◌≡◌, ◌≤◌};
ghost use Rattle.numbers.specs.Products.{IsSummandOf};
ghost use Rattle.numbers.specs.Units.{rank};

use crate::piece::{Piece, Summand};

impl Summand {
    /// The summand that stands for nothing.
    pub const ZERO: Summand = Summand {
        negative: false,
        significand: 0,
        exponent: 0,
    };

    /// The rank of a summand: its value is ±significand × 2^rank units.
    #[tactic(auto, using(crate::proofs::Scale::rank_is))]
    pub fn rank(self) -> u32
        ensures answer { result ≡ rank self.exponent }
        ensures limits { result ≤ 2080 }
    {
        (self.exponent + 1074) as u32
    }
}

/// A piece lies within the limits of a summand.
impl From<Piece> for Summand {
    ghost from_gives = { IsSummandOf };

    #[tactic(auto, using(crate::proofs::Summands::summand_bounded, crate::proofs::Summands::exponent_kept))]
    fn from(piece: Piece) -> Summand {
        Summand {
            negative: piece.negative,
            significand: piece.significand,
            exponent: piece.exponent,
        }
    }
}
