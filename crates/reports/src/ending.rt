//! The reports of a sheet as bytes: of a refused line, and of the run at the end.
ghost use Rattle.std.specs.Prelude.{◌≡◌, length};
ghost use Rattle.sheets.specs.Outputs.{Fits, handed};
ghost use Rattle.sheets.specs.Reports.{refused_report};
ghost use Rattle.std.specs.Float.{binary64};
ghost use Rattle.readings.specs.declared.forms.Direction.TheVariants.{Nearest};
ghost use Rattle.readings.specs.Rounding.{Rounds};
ghost use Rattle.reports.specs.Sheets.{SumWritten};

use crate::sheet::RefusedLine;
use condensers::condenser::Condenser;
use numbers::refusal::Refusal;
use readings::forms::Direction;
use runs::agreement::Report;
use runs::run::Sealed;
use sheets::reports::{write_refused, write_sum};

impl RefusedLine {
    /// The report of the line.
    pub fn write(self, out: &mut [u8]) -> Result<usize, Refusal>
        ensures answer { Fits (refused_report self.line self.code self.place) (length out.old) result }
        ensures bytes { out.new ≡ handed (refused_report self.line self.code self.place) out.old }
    {
        write_refused(self.line, self.code, self.place, out)
    }
}

/// The sum report of a sealed run: its long reading, to the nearest number, and its count.
pub fn write_total<C: Condenser + Drop>(run: &Sealed<C>, out: &mut [u8]) -> Result<usize, Refusal>
    ensures answer { SumWritten (C.Condenser.total run.now.condenser) (C.Condenser.count run.now.condenser) out.old out.new result }
{
    write_run(run, out)
}

fn write_run<C: Condenser + Drop>(run: &Sealed<C>, out: &mut [u8]) -> Result<usize, Refusal>
    ensures answer { SumWritten (C.Condenser.total run.now.condenser) (C.Condenser.count run.now.condenser) out.old out.new result }
{
    let Report { reading, products } = report_of(run);
    write_sum(reading, products, out)
}

/// What the sum report tells.
fn report_of<C: Condenser + Drop>(run: &Sealed<C>) -> Report
    ensures value { Rounds binary64 Nearest (C.Condenser.total run.now.condenser) result.reading }
    ensures count { result.products ≡ C.Condenser.count run.now.condenser }
{
    run.report(Direction::Nearest)
}
