//! `receivers`: two receivers that heard the same products, played over two makes of condenser, and what they read.
#![tactic(auto)]

mod queues;
mod show;

use condensers::column_table::ColumnTable;
use condensers::pairing_table::PairingTable;
use numbers::counts::Counts;
use queues::{FIRST, FIRST_WITH_MORE, SECOND};
use readings::forms::Direction;
use runs::agreement::compare_queues;
use runs::queue::{Answer, Leg};
use runs::run::Open;
use show::{AnswerText, CallText, ReadingText};
use std::io;
use std::io::{BufWriter, Write};

/// More answers than a queue has calls.
const ROOM: usize = 16;

const NO_ANSWER: Answer = Answer {
    code: 0,
    place: 0,
    side: 0,
};

const DIRECTIONS: [Direction; 4] = [
    Direction::Nearest,
    Direction::TowardZero,
    Direction::Up,
    Direction::Down,
];

fn main(rt: HostRuntime) -> anyhow::Result<()> {
    let mut out = BufWriter::new(rt.alloc(), rt.stdout())?;
    writeln!(out, "The same products, in other orders, batches and kinds")?;
    compare(&mut out, &FIRST, &SECOND)?;
    writeln!(out)?;
    writeln!(out, "One product above zero more at the first receiver")?;
    compare(&mut out, &FIRST_WITH_MORE, &SECOND)?;
    writeln!(out)?;
    let reading = resumed_reading();
    writeln!(
        out,
        "2 times 3, sealed and resumed, and 4 times 5: {reading:016x}"
    )?;
    out.flush()?;
    Ok(())
}

/// Plays both queues in each direction, and shows the calls, their answers and the readings.
fn compare<W: Write>(out: &mut W, first: &[Leg], second: &[Leg]) -> io::Result<()> {
    let mut first_answers = [NO_ANSWER; ROOM];
    let mut second_answers = [NO_ANSWER; ROOM];
    let _ = compare_queues(
        PairingTable::new(),
        first,
        &mut first_answers,
        ColumnTable::new(),
        second,
        &mut second_answers,
        Direction::Nearest,
    );
    writeln!(out, "receiver 1, on a pairing table")?;
    show_queue(out, first, &first_answers)?;
    writeln!(out, "receiver 2, on a column table")?;
    show_queue(out, second, &second_answers)?;
    for direction in DIRECTIONS {
        show_readings(out, first, second, direction)?;
    }
    Ok(())
}

/// Both readings in a direction, and how many products each receiver entered.
fn show_readings<W: Write>(
    out: &mut W,
    first: &[Leg],
    second: &[Leg],
    direction: Direction,
) -> io::Result<()> {
    let reports = compare_queues(
        PairingTable::new(),
        first,
        &mut [],
        ColumnTable::new(),
        second,
        &mut [],
        direction,
    );
    let one = reports.first;
    let other = reports.second;
    writeln!(
        out,
        "{direction}: {:016x} of {} products and {:016x} of {}",
        one.reading, one.products, other.reading, other.products
    )
}

/// The steps of a queue, each call with its answer.
fn show_queue<W: Write>(out: &mut W, queue: &[Leg], answers: &[Answer]) -> io::Result<()> {
    let mut answers = answers.iter();
    for leg in queue {
        for (call, answer) in leg.calls.iter().zip(&mut answers) {
            writeln!(out, "  {}: {}", CallText(call), AnswerText(*answer))?;
        }
        writeln!(out, "  seal")?;
        for form in leg.readings {
            writeln!(out, "  {}", ReadingText(*form))?;
        }
        writeln!(out, "  resume")?;
    }
    writeln!(out, "  seal")
}

/// A run over two states: an open one takes, a sealed one is read, and each is used up where it becomes the other.
fn resumed_reading() -> u64 {
    let mut early = Open::new(ColumnTable::new());
    let _ = early.take::<Counts, Counts>(&[2], &[3]);
    let sealed = early.seal();
    let mut late = sealed.resume();
    let _ = late.take::<Counts, Counts>(&[4], &[5]);
    let ended = late.seal();
    ended.read_long(Direction::Nearest)
}
