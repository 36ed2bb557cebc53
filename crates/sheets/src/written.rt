//! The text of each number kind's elements: how it is read and how it is written.
ghost use Rattle.std.specs.Prelude.{◌≡◌, ℕ, ◌≤◌, List, ◌∷◌, length, take};
ghost use Rattle.numbers.specs.Units.{signed as with_sign};
ghost use Rattle.sheets.specs.Digits.{begins, number_of, size_run};
ghost use Rattle.sheets.specs.Elements.{pattern_text, count_text, NoPattern, NoCount, ReadsText, Within};
ghost use Rattle.sheets.specs.Forms.{Form};
ghost use Rattle.sheets.specs.declared.line.Field.{Field};
ghost use Rattle.sheets.specs.Lines.{field_text, place_of, HoldsPattern, HoldsCount, Leads, Proper, Stands, Writes};
ghost use Rattle.sheets.specs.Outputs.{text_of};
ghost use Rattle.sheets.specs.Shapes.{pattern_shape, count_shape};

use crate::digits::{Numeral, PATTERN_DIGITS, read_digits};
use crate::line::Field;
use crate::text::Text;
use numbers::counts::Counts;
use numbers::kind::Kind;
use numbers::patterns::Patterns;

/// The text of an element at the front of some bytes: its length, and the element, none where the number lies outside the kind's range.
pub struct Read<E> {
    pub len: usize,
    pub element: Option<E>,
}

/// A kind of number whose elements have a text on a sheet.
pub trait Written: Kind {
    /// The shape of the texts, before what follows.
    ghost shape: { Form → Form };

    /// The text of an element, behind the letter of the kind.
    ghost text: { Self.Element → List ℕ };

    /// Whether a text of the shape writes a number outside the kind's range.
    ghost outside: { List ℕ → Type 0 };

    /// Whether a field holds the element.
    ghost holds: { Field → Self.Element → Type 0 };

    /// The text of an element at the front of `bytes`, or how many bytes go along with the shape before another byte or the end comes.
    fn read(bytes: &[u8]) -> Result<Read<Self::Element>, usize>
        ensures answer { ReadsText shape text outside bytes.now result }
        ensures law { Leads Self.Kind.LETTER shape outside };

    // each kind makes its own variant
    /// The field that holds an element, with its text and the place of its letter.
    fn field<'a>(digits: &'a [u8], place: u64, element: Self::Element) -> Field<'a>
        ensures bytes { field_text result ≡ Self.Kind.LETTER ∷ digits.now }
        ensures answer { place_of result ≡ place }
        ensures value { text element ≡ digits.now → Writes result }
        ensures limits { Proper result };

    /// The text of the element. It is of the shape, and within the kind's range.
    fn write(element: Self::Element) -> Text
        ensures bytes { text_of result ≡ text element }
        ensures limits { length (text element) ≤ 16 }
        ensures law { Stands Self.Kind.LETTER shape outside (text element) (λ f. holds f element) };
}

impl Written for Patterns {
    ghost shape = { pattern_shape };

    ghost text = { pattern_text };

    ghost outside = { NoPattern };

    ghost holds = { HoldsPattern };

    fn read(bytes: &[u8]) -> Result<Read<u64>, usize> {
        read_pattern(bytes)
    }

    fn field<'a>(digits: &'a [u8], place: u64, element: u64) -> Field<'a> {
        Field::Pattern {
            digits,
            place,
            element,
        }
    }

    fn write(element: u64) -> Text {
        text_of_pattern(element)
    }
}

/// A pattern at the front.
fn read_pattern(bytes: &[u8]) -> Result<Read<u64>, usize>
    ensures answer { ReadsText pattern_shape pattern_text NoPattern bytes.now result }
    ensures law { Leads 112 pattern_shape NoPattern }
{
    let numeral = read_digits(bytes, 16, PATTERN_DIGITS);
    if numeral.count == PATTERN_DIGITS {
        Ok(Read {
            len: PATTERN_DIGITS,
            element: Some(numeral.number),
        })
    } else {
        Err(numeral.count)
    }
}

/// The pattern in hexadecimal.
fn text_of_pattern(element: u64) -> Text
    ensures bytes { text_of result ≡ pattern_text element }
    ensures limits { length (pattern_text element) ≤ 16 }
    ensures law { Stands 112 pattern_shape NoPattern (pattern_text element) (λ f. HoldsPattern f element) }
{
    let mut text = Text::new();
    text.put_pattern(element);
    text
}

const COUNT_DIGITS: usize = 10;

impl Written for Counts {
    ghost shape = { count_shape };

    ghost text = { count_text };

    ghost outside = { NoCount };

    ghost holds = { HoldsCount };

    fn read(bytes: &[u8]) -> Result<Read<i32>, usize> {
        read_count(bytes)
    }

    fn field<'a>(digits: &'a [u8], place: u64, element: i32) -> Field<'a> {
        Field::Count {
            digits,
            place,
            element,
        }
    }

    fn write(element: i32) -> Text {
        text_of_count(element)
    }
}

/// A count at the front.
fn read_count(bytes: &[u8]) -> Result<Read<i32>, usize>
    ensures answer { ReadsText count_shape count_text NoCount bytes.now result }
    ensures law { Leads 99 count_shape NoCount }
{
    if begins_with(bytes, b'0') {
        return Ok(Read {
            len: 1,
            element: Some(0),
        });
    }
    let negative = begins_with(bytes, b'-');
    let sign = usize::from(negative);
    let size = read_size(&bytes[sign..]);
    if size.count == 0 {
        return Err(sign);
    }
    Ok(Read {
        len: sign + size.count,
        element: count_of(negative, size.number),
    })
}

/// The count in decimal.
fn text_of_count(element: i32) -> Text
    ensures bytes { text_of result ≡ count_text element }
    ensures limits { length (count_text element) ≤ 16 }
    ensures law { Stands 99 count_shape NoCount (count_text element) (λ f. HoldsCount f element) }
{
    let mut text = Text::new();
    text.put_decimal(element);
    text
}

/// Whether the bytes begin with that byte.
fn begins_with(bytes: &[u8], byte: u8) -> bool
    ensures answer { result ≡ begins byte bytes.now }
{
    bytes.first() == Some(&byte)
}

/// The digits of a number other than zero at the front, the first of them not 0.
fn read_size(bytes: &[u8]) -> Numeral
    ensures count { result.count ≡ size_run bytes.now }
    ensures value { result.number ≡ number_of 10 (take result.count bytes.now) }
{
    if begins_with(bytes, b'0') {
        return Numeral {
            count: 0,
            number: 0,
        };
    }
    read_digits(bytes, 10, COUNT_DIGITS)
}

/// The count of that sign and size, or none where it has too many bits.
fn count_of(negative: bool, size: u64) -> Option<i32>
    ensures answer { Within 32 (with_sign negative size) result }
{
    let limit = 1i64 << (Counts::WIDTH - 1);
    let size = i64::try_from(size).ok()?;
    let count = if negative { -size } else { size };
    if (-limit..limit).contains(&count) {
        Some(count as i32)
    } else {
        None
    }
}
