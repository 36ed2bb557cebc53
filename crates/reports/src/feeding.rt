//! Feeding a sheet, chunk by chunk, and ending it.
ghost use Rattle.std.specs.Prelude.{◌≡◌, ℕ, ◌+◌, ◌^◌, ◌<◌, ◌≤◌, List, [], ◌++◌, length, take};
ghost use Rattle.sheets.specs.Splitting.{ended, held, sheet_lines, Took};
ghost use Rattle.runs.specs.Bags.{Entry};
ghost use Rattle.runs.specs.Queues.{Holds};
ghost use Rattle.reports.specs.Sheets.{refusals, lines_bag, listed, Enters, Stands};

use crate::sheet::{Fed, RefusedLine, Sheet};
use condensers::condenser::Condenser;
use runs::run::{Open, Sealed};
use sheets::splitter::Splitter;

impl<C: Condenser + Drop> Sheet<C> {
    /// A sheet of which nothing has come in, over a condenser, which is emptied.
    pub fn new(condenser: C) -> Sheet<C>
        ensures law { Stands C.Condenser [] result }
    {
        Sheet::begin(condenser)
    }

    /// A run that is opened, and a splitter before its first line.
    fn begin(condenser: C) -> Sheet<C>
        ensures law { Stands C.Condenser [] result }
    {
        Sheet {
            run: Open::new(condenser),
            lines: Splitter::new(),
        }
    }

    /// Takes the bytes of the chunk up to the next line feed, that one too, and enters the line that it ends.
    pub fn feed(&mut self, chunk: &[u8]) -> Fed
        ensures limits { (result.taken ≤ length chunk.now) × (0 < length chunk.now → 0 < result.taken) }
        ensures lines { Took self.old.lines chunk.now result.taken self.new.lines }
        ensures law { (past : List ℕ) → Stands C.Condenser past self.old → Stands C.Condenser (past ++ take result.taken chunk.now) self.new }
        ensures answer { (past : List ℕ) → Stands C.Condenser past self.old → length (ended [] past) + 1 < 2 ^ 64 → refusals C.Condenser.capacity (ended [] (past ++ take result.taken chunk.now)) ≡ refusals C.Condenser.capacity (ended [] past) ++ listed result.refused }
    {
        self.feed_line(chunk)
    }

    /// One line at most, or the whole chunk.
    fn feed_line(&mut self, chunk: &[u8]) -> Fed
        ensures limits { (result.taken ≤ length chunk.now) × (0 < length chunk.now → 0 < result.taken) }
        ensures lines { Took self.old.lines chunk.now result.taken self.new.lines }
        ensures law { (past : List ℕ) → Stands C.Condenser past self.old → Stands C.Condenser (past ++ take result.taken chunk.now) self.new }
        ensures answer { (past : List ℕ) → Stands C.Condenser past self.old → length (ended [] past) + 1 < 2 ^ 64 → refusals C.Condenser.capacity (ended [] (past ++ take result.taken chunk.now)) ≡ refusals C.Condenser.capacity (ended [] past) ++ listed result.refused }
    {
        let taken = self.lines.take(chunk);
        if self.lines.is_complete() {
            let refused = enter_held(&mut self.run, &self.lines);
            return Fed { taken, refused };
        }
        Fed {
            taken,
            refused: None,
        }
    }

    /// Ends the sheet: bytes behind the last line feed form a line.
    pub fn finish(self) -> Finished<C>
        ensures answer { (past : List ℕ) → Stands C.Condenser past self → length (ended [] past) + 1 < 2 ^ 64 → refusals C.Condenser.capacity (sheet_lines past) ≡ refusals C.Condenser.capacity (ended [] past) ++ listed result.refused }
        ensures after { (past : List ℕ) → Stands C.Condenser past self → Holds C.Condenser result.run.condenser (lines_bag C.Condenser.capacity (sheet_lines past)) }
    {
        self.finish_rest()
    }

    /// The last line, where there is one, and the run sealed.
    fn finish_rest(self) -> Finished<C>
        ensures answer { (past : List ℕ) → Stands C.Condenser past self → length (ended [] past) + 1 < 2 ^ 64 → refusals C.Condenser.capacity (sheet_lines past) ≡ refusals C.Condenser.capacity (ended [] past) ++ listed result.refused }
        ensures after { (past : List ℕ) → Stands C.Condenser past self → Holds C.Condenser result.run.condenser (lines_bag C.Condenser.capacity (sheet_lines past)) }
    {
        let Sheet { run, lines } = self;
        let mut run = run;
        if lines.has_rest() {
            let refused = enter_held(&mut run, &lines);
            return Finished {
                run: run.seal(),
                refused,
            };
        }
        Finished {
            run: run.seal(),
            refused: None,
        }
    }
}

/// A sheet at its end: its last line, if that was refused, and its run, sealed.
#[derive(Drop)]
pub struct Finished<C> {
    pub run: Sealed<C>,
    pub refused: Option<RefusedLine>,
}

/// Enters the line that the splitter holds.
fn enter_held<C: Condenser + Drop>(run: &mut Open<C>, lines: &Splitter) -> Option<RefusedLine>
    ensures after { (bag : List Entry) → Holds C.Condenser run.old.condenser bag → Enters C.Condenser bag (held lines.now) lines.now.number run.new.condenser result }
{
    match run.enter(lines.line()) {
        Ok(()) => None,
        Err(refusal) => Some(RefusedLine {
            line: lines.number(),
            code: refusal.reason.code(),
            place: refusal.place,
            side: refusal.side.number(),
        }),
    }
}
