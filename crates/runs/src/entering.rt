//! How a product enters a run: it is taken or withdrawn.
ghost use Rattle.std.specs.Prelude.{◌≡◌, neg_ℤ, if◌then◌else◌};
ghost use Rattle.numbers.specs.Products.{piece_units};
ghost use Rattle.runs.specs.Lines.{is_sub};
ghost use Rattle.runs.specs.Entering.{is_withdrawn};

use numbers::piece::Piece;
use sheets::line::Word;

/// The two ways in which a product enters.
// an enum and no closure: the calls of a queue and the words of lines choose between the two as data
#[derive(Clone, Copy, PartialEq, Eq, Debug)]
pub(crate) enum Entering {
    Taken,
    Withdrawn,
}

impl Entering {
    /// The piece that is put for a product: its opposite where the product is withdrawn.
    pub(crate) fn piece(self, product: Piece) -> Piece
        ensures value { piece_units result ≡ (if is_withdrawn self then neg_ℤ (piece_units product) else piece_units product) }
    {
        match self {
            Entering::Taken => product,
            Entering::Withdrawn => product.opposite(),
        }
    }
}

/// A line's `add` takes its product, `sub` withdraws it.
impl From<Word> for Entering {
    ghost from_gives = { λ word e. is_withdrawn e ≡ is_sub word };

    fn from(word: Word) -> Entering {
        match word {
            Word::Add => Entering::Taken,
            Word::Sub => Entering::Withdrawn,
        }
    }
}
