//! The whole report of a sheet that stands in memory, into a caller's slice.
ghost use Rattle.std.specs.Prelude.{◌≡◌, ℕ, List, length};
ghost use Rattle.sheets.specs.Outputs.{Fits};
ghost use Rattle.reports.specs.Sheets.{listed};
ghost use Rattle.reports.specs.InMemory.{refused_reports, Appends, Totalled, Reported, SheetWritten};

use crate::ending::write_total;
use crate::feeding::Finished;
use crate::sheet::{Fed, RefusedLine, Sheet};
use condensers::column_table::ColumnTable;
use condensers::condenser::Condenser;
use numbers::refusal::{Reason, Refusal};
use runs::run::Sealed;

/// The reports of a sheet, one behind the other: of each refused line, and of the sum. Where the slice is too short, nothing is written.
pub fn report_sheet(sheet: &[u8], out: &mut [u8]) -> Result<usize, Refusal>
    ensures answer { SheetWritten 67108864 sheet.now out.old out.new result }
{
    write_reports(sheet, out)
}

/// Counts the bytes of all reports first, and then writes them where they fit.
fn write_reports(sheet: &[u8], out: &mut [u8]) -> Result<usize, Refusal>
    ensures answer { SheetWritten 67108864 sheet.now out.old out.new result }
{
    let needed = append_all(ColumnTable::new(), sheet, &mut []);
    if needed > out.len() {
        return Err(Refusal::at(Reason::OutputShort, needed as u64));
    }
    Ok(append_all(ColumnTable::new(), sheet, out))
}

/// Puts all reports of a sheet into the slice, where it has room for them, and tells how many bytes they have.
fn append_all<C: Condenser + Drop>(condenser: C, sheet: &[u8], out: &mut [u8]) -> usize
    ensures after { Reported C.Condenser.capacity sheet.now out.old out.new result }
{
    let mut fed = Sheet::new(condenser);
    let mut rest = sheet;
    let mut end = 0;
    while !rest.is_empty() {
        let Fed { taken, refused } = fed.feed(rest);
        end = append_refused(refused, out, end);
        rest = &rest[taken..];
    }
    let Finished { run, refused } = fed.finish();
    end = append_refused(refused, out, end);
    append_total(&run, out, end)
}

/// Puts the report of a refused line behind the bytes before `end`.
fn append_refused(refused: Option<RefusedLine>, out: &mut [u8], end: usize) -> usize
    ensures after { Appends (refused_reports (listed refused)) out.old end out.new result }
{
    let Some(line) = refused else {
        return end;
    };
    let from = end.min(out.len());
    end.saturating_add(length_of(line.write(&mut out[from..])))
}

/// Puts the report of the sum behind the bytes before `end`.
// not one function with append_refused: over a closure the contract would be longer than both bodies
fn append_total<C: Condenser + Drop>(run: &Sealed<C>, out: &mut [u8], end: usize) -> usize
    ensures after { Totalled (C.Condenser.total run.now.condenser) (C.Condenser.count run.now.condenser) out.old end out.new result }
{
    let from = end.min(out.len());
    end.saturating_add(length_of(write_total(run, &mut out[from..])))
}

/// How many bytes a report has, whether there was room for them or not.
fn length_of(written: Result<usize, Refusal>) -> usize
    ensures answer { (text : List ℕ) (room : ℕ) → Fits text room written → result ≡ length text }
{
    written.unwrap_or_else(|refusal| refusal.place as usize)
}
