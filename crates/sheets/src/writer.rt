//! The line writer: a word and two elements of any two kinds, into the caller's slice.
ghost use Rattle.std.specs.Prelude.{◌≡◌, ℕ, ◌+◌, ◌≤◌, List, ◌∷◌, ◌++◌, length};
ghost use Rattle.sheets.specs.Copies.{Copies, copied};
ghost use Rattle.sheets.specs.Lines.{word_text, line_text, field_text, Writes, Stands, IsLine, RoundTrip};
ghost use Rattle.sheets.specs.Outputs.{text_of, Fits, handed};

use crate::line::{Field, Line, Word};
use crate::reader::read_line;
use crate::text::Text;
use crate::written::Written;
use numbers::counts::Counts;
use numbers::kind::Kind;
use numbers::patterns::Patterns;
use numbers::refusal::Refusal;

/// Writes a line without a line feed. It takes every element of a kind.
pub fn write_line<K: Written, L: Written>(
    word: Word,
    first: K::Element,
    second: L::Element,
    out: &mut [u8],
) -> Result<usize, Refusal>
    ensures answer { Fits (line_text (word_text word) (K.Kind.LETTER ∷ K.Written.text first) (L.Kind.LETTER ∷ L.Written.text second)) (length out.old) result }
    ensures bytes { out.new ≡ handed (line_text (word_text word) (K.Kind.LETTER ∷ K.Written.text first) (L.Kind.LETTER ∷ L.Written.text second)) out.old }
    ensures law { RoundTrip (line_text (word_text word) (K.Kind.LETTER ∷ K.Written.text first) (L.Kind.LETTER ∷ L.Written.text second)) word (λ f. K.Written.holds f first) (λ f. L.Written.holds f second) }
{
    let text = line_text::<K, L>(word, first, second);
    text.copy_to(out)
}

/// Reads a line and writes it again: what is written are the bytes that were read.
pub fn copy_line(line: &[u8], out: &mut [u8]) -> Result<usize, Refusal>
    ensures answer { Copies line.now (length out.old) result }
    ensures bytes { out.new ≡ copied line.now out.old result }
{
    rewrite(line, out)
}

/// The line is read, and then written by its elements.
fn rewrite(line: &[u8], out: &mut [u8]) -> Result<usize, Refusal>
    ensures answer { Copies line.now (length out.old) result }
    ensures bytes { out.new ≡ copied line.now out.old result }
{
    let read = read_line(line)?;
    write_again(read, out)
}

/// The word and the two fields, each behind a tab.
// not formatted by write!, whose promise leaves open whether all was written
fn line_text<K: Written, L: Written>(word: Word, first: K::Element, second: L::Element) -> Text
    ensures bytes { text_of result ≡ line_text (word_text word) (K.Kind.LETTER ∷ K.Written.text first) (L.Kind.LETTER ∷ L.Written.text second) }
    ensures law { RoundTrip (line_text (word_text word) (K.Kind.LETTER ∷ K.Written.text first) (L.Kind.LETTER ∷ L.Written.text second)) word (λ f. K.Written.holds f first) (λ f. L.Written.holds f second) }
{
    let mut text = Text::new();
    text.put_bytes(word_bytes(word));
    put_field::<K>(first, &mut text);
    put_field::<L>(second, &mut text);
    text
}

/// Writes a line that was read, by its elements.
fn write_again(line: Line<'_>, out: &mut [u8]) -> Result<usize, Refusal>
    ensures answer { (bytes : List ℕ) → IsLine bytes line.entry → Copies bytes (length out.old) result }
    ensures bytes { (bytes : List ℕ) → IsLine bytes line.entry → out.new ≡ copied bytes out.old result }
{
    let Line {
        word,
        first,
        second,
    } = line;
    let mut text = Text::new();
    text.put_bytes(word_bytes(word));
    put_again(first, &mut text);
    put_again(second, &mut text);
    text.copy_to(out)
}

/// The texts of the two words.
fn word_bytes(word: Word) -> &'static [u8]
    ensures bytes { result.now ≡ word_text word }
{
    match word {
        Word::Add => b"add",
        Word::Sub => b"sub",
    }
}

/// Puts a tab, the kind's letter and the text of the element.
fn put_field<K: Written>(element: K::Element, text: &mut Text)
    requires { length (text_of text.old) ≤ 60 }
    ensures bytes { text_of text.new ≡ text_of text.old ++ (9 ∷ (K.Kind.LETTER ∷ K.Written.text element)) }
    ensures limits { length (K.Written.text element) ≤ 16 }
    ensures count { length (text_of text.new) ≤ length (text_of text.old) + 18 }
    ensures law { Stands K.Kind.LETTER K.Written.shape K.Written.outside (K.Written.text element) (λ f. K.Written.holds f element) }
{
    text.put_bytes(b"\t");
    text.put_byte(K::LETTER);
    text.put_text(&K::write(element));
}

/// Puts a field that was read, by its element.
fn put_again(field: Field<'_>, text: &mut Text)
    requires { length (text_of text.old) ≤ 60 }
    ensures bytes { Writes field.entry → text_of text.new ≡ text_of text.old ++ (9 ∷ field_text field.entry) }
    ensures count { length (text_of text.new) ≤ length (text_of text.old) + 18 }
{
    match field {
        Field::Pattern { element, .. } => put_field::<Patterns>(element, text),
        Field::Count { element, .. } => put_field::<Counts>(element, text),
    }
}
