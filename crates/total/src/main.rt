//! `total`: the report of the sheet on standard input. It only moves bytes between the streams and the sheet.
#![tactic(auto)]

use condensers::pairing_table::PairingTable;
use reports::sheet::Sheet;
use std::io;
use std::io::{BufWriter, Read, Write};

fn main(rt: HostRuntime) -> anyhow::Result<()> {
    let mut sheet = Sheet::new(PairingTable::new());
    let mut out = BufWriter::new(rt.alloc(), rt.stdout())?;
    let mut input = rt.stdin();
    let mut chunk = [0u8; 65536];
    // a bound, since every loop has to end: no input has as many parts
    for _ in 0..u64::MAX {
        let part = read_part(&mut input, &mut chunk)?;
        if part.is_empty() {
            break;
        }
        sheet.report_part(part, &mut out)?;
    }
    let _run = sheet.report_end(&mut out)?;
    out.flush()?;
    Ok(())
}

/// The bytes that come next, empty at the end of the input.
fn read_part<'a, R: Read>(input: &mut R, chunk: &'a mut [u8]) -> io::Result<&'a [u8]> {
    let read = input.read(chunk)?;
    Ok(&chunk[..read])
}
