//! What a kind of number is: its elements, their letter and width on a sheet, and the factor of each.
ghost use Rattle.std.specs.Prelude.{ℕ, ℤ, Option};
ghost use Rattle.numbers.specs.Acceptance.{Answers};

use crate::factor::Factor;
use crate::refusal::Reason;

/// A kind of number. It says which value each of its elements has, and turns the acceptable ones into factors.
pub trait Kind {
    type Element: Copy + Drop;

    /// The letter that begins a field of this kind on a sheet.
    const LETTER: u8;
    /// The bits of an element.
    const WIDTH: u32;

    ghost LETTER: { ℕ };

    ghost WIDTH: { ℕ };

    /// An element's value in units of 2^-1074, or none where it has no finite value.
    ghost value: { Self.Element → Option ℤ };

    /// The element's factor, or why it has none.
    fn factor(element: Self::Element) -> Result<Factor, Reason>
        ensures answer { Answers (value element) result };
}
