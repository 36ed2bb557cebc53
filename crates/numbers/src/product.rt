//! The product of two factors as one piece, and the piece that a withdrawal puts.
ghost use Rattle.std.specs.Prelude.{◌≡◌, ◌*ℤ◌, neg_ℤ};
ghost use Rattle.numbers.specs.Products.{IsProduct, IsOpposite, factor_units, piece_units, one_units};

use crate::factor::Factor;
use crate::piece::Piece;

impl Piece {
    /// The piece that stands for nothing.
    pub const ZERO: Piece = Piece {
        negative: false,
        significand: 0,
        exponent: 0,
    };

    /// The same piece with the opposite sign; zero stays zero.
    pub fn opposite(self) -> Piece
        ensures answer { IsOpposite self result }
        ensures value { piece_units result ≡ neg_ℤ (piece_units self) }
    {
        self.turned()
    }

    /// The same piece with its sign turned, zero excepted.
    fn turned(self) -> Piece
        ensures answer { IsOpposite self result }
    {
        if self.significand == 0 {
            return self;
        }
        // each field named: a struct with limits takes no `..`
        Piece {
            negative: !self.negative,
            significand: self.significand,
            exponent: self.exponent,
        }
    }
}

impl Factor {
    /// The factor zero.
    pub const ZERO: Factor = Factor {
        negative: false,
        significand: 0,
        exponent: 0,
    };

    /// The exact product of two factors. Their limits make it fit, so nothing is tested.
    pub fn times(self, other: Factor) -> Piece
        ensures answer { IsProduct self other result }
        ensures value { piece_units result *ℤ one_units ≡ factor_units self *ℤ factor_units other }
    {
        self.product(other)
    }

    /// The piece of two factors: its sign, its significand and its exponent.
    fn product(self, other: Factor) -> Piece
        ensures answer { IsProduct self other result }
    {
        let significand = self.significand as u64 * other.significand as u64;
        if significand == 0 {
            return Piece::ZERO;
        }
        let negative = self.negative != other.negative;
        Piece {
            negative,
            significand,
            exponent: self.exponent + other.exponent,
        }
    }
}
