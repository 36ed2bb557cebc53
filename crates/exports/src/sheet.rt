//! The report of a sheet that stands in memory.
ghost use Rattle.exports.specs.Answers.{Report};

use crate::answer::Answer;
use reports::in_memory::report_sheet;

/// Writes the reports of a sheet, one behind the other, and tells how many bytes they have; or refuses a slice that is too short, which then stays as it was.
pub fn total_report(sheet: &[u8], out: &mut [u8]) -> Answer
    ensures answer { Report sheet.now out.old out.new result }
{
    Answer::from(report_sheet(sheet, out).map(|length| length as u64))
}
