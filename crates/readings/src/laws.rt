//! The laws of rounding, each a theorem over all totals, and the worked cases, named by contracts.
ghost use Rattle.readings.specs.Laws.{OneAnswer, RoundingLaws};
ghost use Rattle.readings.specs.MarkedCases.{MarkedCases};

/// What holds of every rounding, in every direction and both widths: it exists, it is unique, it keeps the order, it is exact where it can be,
/// and each direction is what its name says. The call does nothing.
pub fn rounding_laws()
    ensures law { RoundingLaws }
{}

/// A total has one answer in each form. The call does nothing.
pub fn one_answer()
    ensures law { OneAnswer }
{}

/// The definitions yield each line of the table of worked cases. The call does nothing.
pub fn marked_cases()
    ensures law { MarkedCases }
{}
