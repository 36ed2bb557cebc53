//! A refusal: why a call said no, at which place, and on which side.
ghost use Rattle.std.specs.Prelude.{◌≡◌, Some};
ghost use Rattle.numbers.specs.declared.refusal.Side.TheVariants.{Neither};
ghost use Rattle.numbers.specs.Refusals.{code_of, side_of, Refused, refusal_text};

use std::error::Error;
use std::fmt;

/// Why a call was refused, by the number that stands for it.
#[derive(Clone, Copy, PartialEq, Eq, Debug)]
pub enum Reason {
    /// The element has no finite value.
    NotFinite = 1,
    /// The element's value is no factor's value, or too small.
    NotFactor = 2,
    /// The two slices differ in length.
    LengthsDiffer = 3,
    /// There is no room for that many more.
    Full = 4,
    /// The line has another shape.
    Shape = 5,
    /// The count lies outside the range of its kind.
    CountRange = 6,
    /// The output slice is too short.
    OutputShort = 7,
    /// The long reading is too large for the short width.
    ShortRange = 8,
}

/// Which of two slices or fields a refusal speaks of.
#[derive(Clone, Copy, PartialEq, Eq, Debug)]
pub enum Side {
    Neither = 0,
    First = 1,
    Second = 2,
}

/// What a refused call answers.
#[derive(Clone, Copy, PartialEq, Eq, Debug)]
pub struct Refusal {
    pub reason: Reason,
    pub place: u64,
    pub side: Side,
}

impl Reason {
    /// The number that stands for the reason.
    pub fn code(self) -> u64
        ensures answer { result ≡ code_of self }
    {
        self as u64
    }
}

impl Side {
    /// The number that stands for the side.
    pub fn number(self) -> u64
        ensures answer { result ≡ side_of self }
    {
        u64::from(self as u8)
    }
}

impl Refusal {
    /// A refusal at a place that lies on neither side.
    pub fn at(reason: Reason, place: u64) -> Refusal
        ensures answer { result ≡ record { reason = reason; place = place; side = Neither } }
        ensures value { Refused result (code_of reason) place 0 }
    {
        Refusal {
            reason,
            place,
            side: Side::Neither,
        }
    }
}

/// Code, place and side in decimal, parted by spaces.
impl fmt::Display for Refusal {
    ghost output = { λ r. Some (refusal_text r) };

    fn fmt<W: fmt::Write>(&self, f: &mut fmt::Formatter<W>) -> fmt::Result {
        let code = self.reason.code();
        let place = self.place;
        let side = self.side.number();
        write!(f, "{code} {place} {side}")
    }
}

impl Error for Refusal {}
