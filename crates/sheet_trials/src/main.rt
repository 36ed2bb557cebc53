//! Trials of sheets: for each name in `sheets.txt` a heading and the report of that sheet, whose bytes come in chunks of one length after another.
#![tactic(auto)]

use condensers::pairing_table::PairingTable;
use reports::sheet::Sheet;
use std::fs;
use std::io::{BufWriter, Write};

fn main(rt: HostRuntime) -> anyhow::Result<()> {
    let mut out = BufWriter::new(rt.alloc(), rt.stdout())?;
    let names = fs::read_to_string(&rt, "sheets.txt")?;
    for (at, name) in names.as_str().lines().enumerate() {
        let path = format!(in rt.alloc(); "sheets/{name}")?;
        let bytes = fs::read(&rt, path.as_str())?;
        writeln!(out, "== {name}")?;
        report(bytes.as_slice(), at, &mut out)?;
    }
    out.flush()?;
    Ok(())
}

/// The report of a sheet whose bytes come in chunks, of a length by its place among the sheets.
fn report<W: Write>(bytes: &[u8], at: usize, out: &mut W) -> anyhow::Result<()> {
    let mut sheet = Sheet::new(PairingTable::new());
    for chunk in bytes.chunks(at % 97 + 1) {
        sheet.report_part(chunk, out)?;
    }
    let _run = sheet.report_end(out)?;
    Ok(())
}
