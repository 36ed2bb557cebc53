//! The steps of a queue, and how a line of text writes one.
ghost use Rattle.std.specs.Prelude.{◌≡◌, false};
ghost use Rattle.player.specs.Played.{sort_of, enters};

use crate::text::{ReadError, read_bytes, read_count, read_list, read_pattern};
use readings::forms::Form;
use runs::queue;
use runs::queue::Call;
use std::alloc::Global;
use std::str::FromStr;

/// The make of the condenser that a run is opened on.
#[derive(Clone, Copy)]
pub enum Table {
    Pairing,
    Column,
    /// Room for two pieces.
    Duo,
}

impl FromStr for Table {
    type Err = ReadError;

    fn from_str(word: &str) -> Result<Table, ReadError> {
        match word {
            "pairing" => Ok(Table::Pairing),
            "column" => Ok(Table::Column),
            "duo" => Ok(Table::Duo),
            _ => Err(ReadError::NoStep),
        }
    }
}

/// A slice of elements of one kind.
// beside the library's Elements: this one owns what that one lends
#[derive(Drop)]
pub enum Elements {
    Patterns(Vec<u64>),
    Counts(Vec<i32>),
}

impl Elements {
    /// The same elements, lent to a call.
    fn lent(&self) -> queue::Elements<'_> {
        match self {
            Elements::Patterns(patterns) => queue::Elements::Patterns(patterns.as_slice()),
            Elements::Counts(counts) => queue::Elements::Counts(counts.as_slice()),
        }
    }
}

/// A step of a queue.
#[derive(Drop)]
pub enum Step {
    Open(Table),
    Take(Elements, Elements),
    Withdraw(Elements, Elements),
    SheetLine(Vec<u8>),
    Seal,
    Resume,
    Read(Form),
    Count,
}

impl Step {
    /// The call that the step makes on an open run, where it makes one.
    pub(crate) fn call(&self) -> Option<Call<'_>>
        ensures call { enters (sort_of self.now) ≡ false → result ≡ None }
    {
        match self {
            Step::Take(firsts, seconds) => Some(Call::Take(firsts.lent(), seconds.lent())),
            Step::Withdraw(firsts, seconds) => Some(Call::Withdraw(firsts.lent(), seconds.lent())),
            Step::SheetLine(line) => Some(Call::SheetLine(line.as_slice())),
            _ => None,
        }
    }
}

/// The step that a line writes.
pub(crate) fn read_step(heap: Global, line: &str) -> Result<Step, ReadError> {
    match line.split_once(' ') {
        None => read_word(heap, line),
        Some((word, rest)) => read_words(heap, word, rest),
    }
}

/// A step of one word.
fn read_word(heap: Global, word: &str) -> Result<Step, ReadError> {
    match word {
        "line" => Ok(Step::SheetLine(Vec::new(heap))),
        "seal" => Ok(Step::Seal),
        "resume" => Ok(Step::Resume),
        "count" => Ok(Step::Count),
        _ => Err(ReadError::NoStep),
    }
}

/// A step of a word and what is behind it.
fn read_words(heap: Global, word: &str, rest: &str) -> Result<Step, ReadError> {
    match word {
        "line" => Ok(Step::SheetLine(read_bytes(heap, rest.as_bytes())?)),
        "open" => Ok(Step::Open(rest.parse()?)),
        "take" => read_slices(heap, rest, Step::Take),
        "withdraw" => read_slices(heap, rest, Step::Withdraw),
        "read" => Ok(Step::Read(read_form(rest)?)),
        _ => Err(ReadError::NoStep),
    }
}

/// The step of two slices.
fn read_slices<F: FnOnce(Elements, Elements) -> Step>(
    heap: Global,
    rest: &str,
    step: F,
) -> Result<Step, ReadError>
    requires call { F.IsAlwaysCallable step }
{
    let (first, second) = rest.split_once(' ').ok_or(ReadError::NoStep)?;
    Ok(step(read_elements(heap, first)?, read_elements(heap, second)?))
}

/// The letter of a kind, a colon, and elements parted by commas.
fn read_elements(heap: Global, word: &str) -> Result<Elements, ReadError> {
    match word.split_once(':') {
        Some(("p", list)) => Ok(Elements::Patterns(read_list(heap, list, read_pattern)?)),
        Some(("c", list)) => Ok(Elements::Counts(read_list(heap, list, read_count)?)),
        _ => Err(ReadError::NoStep),
    }
}

/// A direction and a width.
fn read_form(rest: &str) -> Result<Form, ReadError> {
    let (direction, width) = rest.split_once(' ').ok_or(ReadError::NoStep)?;
    Ok(Form {
        direction: direction.parse()?,
        width: width.parse()?,
    })
}
