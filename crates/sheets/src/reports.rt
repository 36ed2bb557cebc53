//! The two reports as text: of a refused line, and of the sum.
ghost use Rattle.std.specs.Prelude.{◌≡◌, length};
ghost use Rattle.sheets.specs.Outputs.{text_of, Fits, handed};
ghost use Rattle.sheets.specs.Reports.{refused_report, sum_report};

use crate::text::Text;
use numbers::refusal::Refusal;

/// Writes `no`, line, code and place, parted by tabs, with a line feed.
// numbers and no Refusal: a caller may report numbers that no refusal has
pub fn write_refused(line: u64, code: u64, place: u64, out: &mut [u8]) -> Result<usize, Refusal>
    ensures answer { Fits (refused_report line code place) (length out.old) result }
    ensures bytes { out.new ≡ handed (refused_report line code place) out.old }
{
    let text = refused_text(line, code, place);
    text.copy_to(out)
}

/// Writes `sum`, the pattern in hexadecimal and the number of products, parted by tabs, with a line feed.
pub fn write_sum(pattern: u64, products: u64, out: &mut [u8]) -> Result<usize, Refusal>
    ensures answer { Fits (sum_report pattern products) (length out.old) result }
    ensures bytes { out.new ≡ handed (sum_report pattern products) out.old }
{
    let text = sum_text(pattern, products);
    text.copy_to(out)
}

// not formatted by write!, whose promise leaves open whether all was written
fn refused_text(line: u64, code: u64, place: u64) -> Text
    ensures bytes { text_of result ≡ refused_report line code place }
{
    let mut text = Text::new();
    text.put_bytes(b"no\t");
    text.put_decimal(line);
    text.put_bytes(b"\t");
    text.put_decimal(code);
    text.put_bytes(b"\t");
    text.put_decimal(place);
    text.put_bytes(b"\n");
    text
}

// not formatted, as above
fn sum_text(pattern: u64, products: u64) -> Text
    ensures bytes { text_of result ≡ sum_report pattern products }
{
    let mut text = Text::new();
    text.put_bytes(b"sum\t");
    text.put_pattern(pattern);
    text.put_bytes(b"\t");
    text.put_decimal(products);
    text.put_bytes(b"\n");
    text
}
