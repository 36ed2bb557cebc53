//! From elements to the piece of their product, or the refusal that they get.
ghost use Rattle.std.specs.Prelude.{◌≡◌, ℕ, ℤ, Option};
ghost use Rattle.numbers.specs.Refusals.{side_of};
ghost use Rattle.runs.specs.Calls.{FactorAt, PieceOf};

use numbers::factor::Factor;
use numbers::kind::Kind;
use numbers::piece::Piece;
use numbers::refusal::{Refusal, Side};

/// The factor of an element that stands at a place on a side.
pub(crate) fn factor_at<K: Kind>(
    element: K::Element,
    place: u64,
    side: Side,
) -> Result<Factor, Refusal>
    ensures answer { FactorAt (K.Kind.value element) place (side_of side) result }
{
    K::factor(element).map_err(|reason| Refusal {
        reason,
        place,
        side,
    })
}

/// The product of two factors, or the first refusal.
pub(crate) fn product_of(
    first: Result<Factor, Refusal>,
    second: Result<Factor, Refusal>,
) -> Result<Piece, Refusal>
    ensures answer { (x : Option ℤ) (p : ℕ) (y : Option ℤ) (q : ℕ) → FactorAt x p 1 first → FactorAt y q 2 second → PieceOf x p y q result }
{
    Ok(first?.times(second?))
}

/// The product of the elements at an index of two slices.
// not by `product_of`, which makes both factors before it looks at either: this is what each product of a slice costs
pub(crate) fn piece_at<K: Kind, L: Kind>(
    first: K::Element,
    second: L::Element,
    index: u64,
) -> Result<Piece, Refusal>
    ensures answer { PieceOf (K.Kind.value first) index (L.Kind.value second) index result }
{
    let first = factor_at::<K>(first, index, Side::First)?;
    let second = factor_at::<L>(second, index, Side::Second)?;
    Ok(first.times(second))
}
