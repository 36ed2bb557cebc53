//! Entering a sheet line: `add` takes the product of its two elements, `sub` withdraws it.
ghost use Rattle.numbers.specs.Refusals.{side_of};
ghost use Rattle.sheets.specs.Lines.{field_text, place_of, Writes};
ghost use Rattle.runs.specs.Calls.{Made, FactorAt, sheet_line};
ghost use Rattle.runs.specs.Lines.{field_value, line_reading};

use crate::checks::check_room;
use crate::element::{factor_at, product_of};
use crate::entering::Entering;
use crate::run::Open;
use condensers::condenser::Condenser;
use numbers::counts::Counts;
use numbers::factor::Factor;
use numbers::patterns::Patterns;
use numbers::refusal::{Refusal, Side};
use sheets::line::{Field, Line, Word};
use sheets::reader::read_line;

impl<C: Condenser + Drop> Open<C> {
    /// Enters a line, or refuses it and changes nothing: the text is tested first, then the room, then the elements.
    pub fn enter(&mut self, line: &[u8]) -> Result<(), Refusal>
        ensures call { Made C.Condenser self.old.condenser self.new.condenser (sheet_line (line_reading line.now)) result }
    {
        self.enter_text(line)
    }

    /// Reads the line, tests the room and the elements, and puts the product.
    fn enter_text(&mut self, line: &[u8]) -> Result<(), Refusal>
        ensures call { Made C.Condenser self.old.condenser self.new.condenser (sheet_line (line_reading line.now)) result }
    {
        let Line {
            word,
            first,
            second,
        } = read_line(line)?;
        check_room(&self.condenser, 1)?;
        let product = product_of(
            factor_of(first, Side::First),
            factor_of(second, Side::Second),
        )?;
        self.condenser.put(Entering::from(word).piece(product))
    }
}

/// The factor of a field, whose text is that of its element.
fn factor_of(field: Field, side: Side) -> Result<Factor, Refusal>
    ensures answer { Writes field.entry → FactorAt (field_value (field_text field.entry)) (place_of field.entry) (side_of side) result }
{
    match field {
        Field::Pattern { place, element, .. } => factor_at::<Patterns>(element, place, side),
        Field::Count { place, element, .. } => factor_at::<Counts>(element, place, side),
    }
}
