//! The line reader: one pass over the caller's line, which finds its shape and its fields.
ghost use Rattle.std.specs.Prelude.{◌≡◌, ℕ, ◌+◌, ◌^◌, ◌<◌, ◌≤◌, List, length, slice_index};
ghost use Rattle.numbers.specs.Refusals.{Refused, side_of};
ghost use Rattle.sheets.specs.Forms.{shared};
ghost use Rattle.sheets.specs.Lines.{ReadsWord, ReadsField, HasParts, Scans, ReadsLine};

use crate::line::{Field, Line, Word};
use crate::written::{Read, Written};
use numbers::counts::Counts;
use numbers::kind::Kind;
use numbers::patterns::Patterns;
use numbers::refusal::{Reason, Refusal, Side};

const TAB: u8 = b'\t';
/// Behind the word and a tab.
const FIRST: usize = 4;

/// A field that was found: where it ends, and the field, none where its number lies outside the range of its kind.
#[derive(Drop)]
struct Found<'a> {
    end: usize,
    field: Option<Field<'a>>,
}

/// A line of the right shape: its word, the tab between its fields, and each field, none where its number lies outside the range of its kind.
#[derive(Drop)]
struct Scanned<'a> {
    word: Word,
    tab: usize,
    first: Option<Field<'a>>,
    second: Option<Field<'a>>,
}

/// Reads a line: its word and its fields, or where it departs from the shape of a line, or which count is out of range.
pub fn read_line<'a>(line: &'a [u8]) -> Result<Line<'a>, Refusal>
    ensures answer { ReadsLine line.now result }
{
    parse_line(line)
}

/// The shape of the line is found first, and then its fields are held to their ranges.
fn parse_line<'a>(line: &'a [u8]) -> Result<Line<'a>, Refusal>
    ensures answer { ReadsLine line.now result }
{
    let scanned = scan_line(line)?;
    in_range(scanned)
}

/// The line, unless one of its fields is out of range.
fn in_range<'a>(scanned: Scanned<'a>) -> Result<Line<'a>, Refusal>
    requires { scanned.tab + 1 < 2 ^ 64 }
    ensures answer { (line : List ℕ) → HasParts line scanned.entry → ReadsLine line result }
{
    let Scanned {
        word,
        tab,
        first,
        second,
    } = scanned;
    let first = first.ok_or(out_of_range(FIRST, Side::First))?;
    let second = second.ok_or(out_of_range(tab + 1, Side::Second))?;
    Ok(Line {
        word,
        first,
        second,
    })
}

/// The parts of a line of the right shape, or where it departs from that shape.
fn scan_line<'a>(line: &'a [u8]) -> Result<Scanned<'a>, Refusal>
    ensures answer { Scans line.now result }
{
    let word = read_word(line)?;
    let Found {
        end: tab,
        field: first,
    } = read_field(line, FIRST)?;
    let Some(&TAB) = line.get(tab) else {
        return Err(misshapen(tab));
    };
    let Found { end, field: second } = read_field(line, tab + 1)?;
    if end < line.len() {
        return Err(misshapen(end));
    }
    Ok(Scanned {
        word,
        tab,
        first,
        second,
    })
}

fn misshapen(place: usize) -> Refusal
    ensures answer { Refused result 5 place 0 }
{
    Refusal::at(Reason::Shape, place as u64)
}

fn out_of_range(field: usize, side: Side) -> Refusal
    ensures answer { Refused result 6 field (side_of side) }
{
    Refusal {
        reason: Reason::CountRange,
        place: field as u64,
        side,
    }
}

/// The word of a line that begins with one and a tab.
fn read_word(line: &[u8]) -> Result<Word, Refusal>
    ensures answer { ReadsWord line.now result }
{
    let add = shared_front(line, b"add\t");
    if add == FIRST {
        return Ok(Word::Add);
    }
    let sub = shared_front(line, b"sub\t");
    if sub == FIRST {
        return Ok(Word::Sub);
    }
    Err(misshapen(add.max(sub)))
}

/// How many leading bytes the line shares with the text.
fn shared_front(line: &[u8], text: &[u8]) -> usize
    ensures answer { result ≡ shared line.now text.now }
{
    line.iter()
        .zip(text)
        .take_while(|(byte, other)| **byte == **other)
        .count()
}

/// The field whose letter stands at `at`.
fn read_field<'a>(line: &'a [u8], at: usize) -> Result<Found<'a>, Refusal>
    requires { at ≤ length line.now }
    ensures answer { ReadsField line.now at result }
{
    match line.get(at) {
        Some(&Patterns::LETTER) => field_of::<Patterns>(line, at),
        Some(&Counts::LETTER) => field_of::<Counts>(line, at),
        _ => Err(misshapen(at)),
    }
}

/// The field of the kind whose letter stands at `at`.
fn field_of<'a, K: Written>(line: &'a [u8], at: usize) -> Result<Found<'a>, Refusal>
    requires { (at < length line.now) × (slice_index line.now at ≡ K.Kind.LETTER) }
    ensures answer { ReadsField line.now at result }
{
    let Read { len, element } = K::read(&line[at + 1..]).map_err(|n| misshapen(at + 1 + n))?;
    let end = at + 1 + len;
    let field = element.map(|element| K::field(&line[at + 1..end], at as u64, element));
    Ok(Found { end, field })
}
