//! A sheet's reports written to a stream as its bytes come in.
ghost use Rattle.std.specs.Prelude.{◌≡◌, ℕ, true, List, ◌++◌, is_ok, IfOk};
ghost use Rattle.sheets.specs.Splitting.{sheet_lines};
ghost use Rattle.runs.specs.Queues.{Holds};
ghost use Rattle.reports.specs.Sheets.{lines_bag, Stands};

use crate::ending::write_total;
use crate::feeding::Finished;
use crate::sheet::{Fed, RefusedLine, Sheet};
use anyhow::anyhow;
use condensers::condenser::Condenser;
use numbers::refusal::Refusal;
use runs::run::Sealed;
use std::io::Write;

/// More bytes than a report has.
const ROOM: usize = 64;

impl<C: Condenser + Drop> Sheet<C> {
    /// Feeds a part of the sheet and writes the report of each line that is refused.
    pub fn report_part<W: Write>(&mut self, bytes: &[u8], out: &mut W) -> anyhow::Result<()>
        ensures after { is_ok result ≡ true → (past : List ℕ) → Stands C.Condenser past self.old → Stands C.Condenser (past ++ bytes.now) self.new }
    {
        self.report_lines(bytes, out)
    }

    /// Line by line.
    fn report_lines<W: Write>(&mut self, bytes: &[u8], out: &mut W) -> anyhow::Result<()>
        ensures after { is_ok result ≡ true → (past : List ℕ) → Stands C.Condenser past self.old → Stands C.Condenser (past ++ bytes.now) self.new }
    {
        let mut rest = bytes;
        while !rest.is_empty() {
            let Fed { taken, refused } = self.feed(rest);
            report_line(refused, out)?;
            rest = &rest[taken..];
        }
        Ok(())
    }

    /// Ends the sheet, writes what is left of its report, and hands out its run, sealed.
    pub fn report_end<W: Write>(self, out: &mut W) -> anyhow::Result<Sealed<C>>
        ensures after { IfOk result (λ run. (past : List ℕ) → Stands C.Condenser past self → Holds C.Condenser run.condenser (lines_bag C.Condenser.capacity (sheet_lines past))) }
    {
        let Finished { run, refused } = self.finish();
        report_line(refused, out)?;
        write_report(out, |text| write_total(&run, text))?;
        Ok(run)
    }
}

/// The report of a line that was refused.
fn report_line<W: Write>(refused: Option<RefusedLine>, out: &mut W) -> anyhow::Result<()> {
    let Some(line) = refused else {
        return Ok(());
    };
    write_report(out, |text| line.write(text))
}

/// The report that is composed in a slice.
// not inlined: its locals are cleared where it is entered, which is to be paid for a report alone, and not for an accepted line
#[inline(never)]
fn write_report<W: Write, F: FnOnce(&mut [u8]) -> Result<usize, Refusal>>(
    out: &mut W,
    compose: F,
) -> anyhow::Result<()>
    requires { F.IsAlwaysCallable compose }
{
    let mut text = [0; ROOM];
    let Some(report) = compose(&mut text)
        .ok()
        .and_then(|length| text.get(..length))
    else {
        return Err(anyhow!("no room for the report"));
    };
    out.write_all(report)?;
    Ok(())
}
