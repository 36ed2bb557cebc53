//! Forms by numbers: direction 0 nearest, 1 toward zero, 2 up, 3 down; width 0 long, 1 short.
ghost use Rattle.exports.specs.Answers.{FormOf};

use readings::forms::{Direction, Form, Width};

/// The form with those numbers, if there is one.
pub(crate) fn form_of(direction: u32, width: u32) -> Option<Form>
    ensures answer { FormOf direction width result }
{
    Some(Form {
        direction: Direction::try_from(direction).ok()?,
        width: Width::try_from(width).ok()?,
    })
}
