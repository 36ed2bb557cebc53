//! Exact dot products of lent slices, each rounded once.
ghost use Rattle.std.specs.Prelude.{map};
ghost use Rattle.exports.specs.Answers.{Dot, DotInForm};

use crate::answer::Answer;
use crate::forms::form_of;
use condensers::column_table::ColumnTable;
use numbers::kind::Kind;
use numbers::refusal::Refusal;
use readings::forms::Form;
use runs::run::Open;

/// The sum of the products of two slices, of any two kinds, in the form with those numbers.
// the form by its numbers: C hands them in
pub fn total_dot<K: Kind, L: Kind>(
    firsts: &[K::Element],
    seconds: &[L::Element],
    direction: u32,
    width: u32,
) -> Answer
    ensures answer { Dot (map K.Kind.value firsts.now) (map L.Kind.value seconds.now) direction width result }
{
    match form_of(direction, width) {
        Some(form) => Answer::from(dot_in::<K, L>(firsts, seconds, form)),
        None => Answer::no_form(),
    }
}

/// A run of its own, over a column table, takes the products, is sealed and read.
fn dot_in<K: Kind, L: Kind>(
    firsts: &[K::Element],
    seconds: &[L::Element],
    form: Form,
) -> Result<u64, Refusal>
    ensures answer { DotInForm form (map K.Kind.value firsts.now) (map L.Kind.value seconds.now) result }
{
    let mut run = Open::new(ColumnTable::new());
    run.take::<K, L>(firsts, seconds)?;
    run.seal().read(form)
}
