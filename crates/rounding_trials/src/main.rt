//! Reads rounding vectors, one a line, and prints the reading of each on the pairing table and on the column table.
#![tactic(auto)]

mod vector;

use condensers::column_table::ColumnTable;
use condensers::pairing_table::PairingTable;
use numbers::refusal::Refusal;
use std::io;
use std::io::{BufRead, BufReader, BufWriter, Write};
use vector::reading;

/// A reading's 16 digits, or the numbers of its refusal.
fn write_reading<W: Write>(out: &mut W, reading: Result<u64, Refusal>) -> io::Result<()> {
    match reading {
        Ok(pattern) => write!(out, "{pattern:016x}"),
        Err(refusal) => write!(out, "no {refusal}"),
    }
}

/// Both readings of a line.
fn write_readings<W: Write>(out: &mut W, line: &str) -> anyhow::Result<()> {
    let mut pairing = PairingTable::new();
    write_reading(out, reading(&mut pairing, line)?)?;
    write!(out, " ")?;
    let mut columns = ColumnTable::new();
    write_reading(out, reading(&mut columns, line)?)?;
    writeln!(out)?;
    Ok(())
}

fn run(rt: &HostRuntime) -> anyhow::Result<()> {
    let mut out = BufWriter::new(rt.alloc(), rt.stdout())?;
    for line in BufReader::new(rt.alloc(), rt.stdin())?.lines(rt.alloc()) {
        write_readings(&mut out, line?.as_str())?;
    }
    out.flush()?;
    Ok(())
}

fn main(rt: HostRuntime) -> anyhow::Result<()> {
    run(&rt)
}
