//! Runs both tables on the same pieces, compares what they hand out, and counts the additions of the pairing table.
#![tactic(auto)]

mod additions;
mod pieces;
mod small;
mod wide;

use additions::count_additions;
use condensers::column_table::ColumnTable;
use condensers::condenser::Condenser;
use condensers::pairing_table::PairingTable;
use pieces::{Order, Set, piece_at};
use small::Small;
use std::io;
use std::mem::size_of;
use wide::Wide;

/// Puts `count` pieces of a set, in the given order.
fn fill<C: Condenser>(condenser: &mut C, set: Set, order: Order, count: u32) {
    for i in 0..count {
        let _ = condenser.put(piece_at(set, order.index(i, count)));
    }
}

/// Whether both tables hand out the same sum for a set in an order.
fn agree(set: Set, order: Order, count: u32, expected: &Wide) -> bool {
    let mut pairing = PairingTable::new();
    fill(&mut pairing, set, order, count);
    let mut columns = ColumnTable::new();
    fill(&mut columns, set, order, count);
    Wide::of(&pairing) == *expected && Wide::of(&columns) == *expected
}

fn report(rt: &impl Print, set: Set, count: u32) -> io::Result<()> {
    let mut first = ColumnTable::new();
    fill(&mut first, set, Order::Forward, count);
    let expected = Wide::of(&first);
    let [forward, backward, strided] = Order::ALL.map(|order| agree(set, order, count, &expected));
    let zero = expected.is_zero();
    println!(rt;
        "{set}: {count} pieces, tables agree {forward} {backward} {strided}, sum zero {zero}"
    )?;
    for order in Order::ALL {
        let made = count_additions(set, order, count);
        println!(rt; "{set}, {order}: {made}")?;
    }
    Ok(())
}

/// A third piece put into a condenser that holds two.
fn report_refusal(rt: &impl Print) -> io::Result<()> {
    let mut small = Small::new();
    for i in 0..3 {
        match small.put(piece_at(Set::Powers, i)) {
            Ok(()) => println!(rt; "small condenser: piece {i} put")?,
            Err(refusal) => println!(rt; "small condenser: piece {i} refused, {refusal}")?,
        }
    }
    let count = small.put_count();
    println!(rt; "small condenser: {count} pieces")
}

fn main(rt: HostRuntime) -> io::Result<()> {
    report(&rt, Set::Random, 2000)?;
    report(&rt, Set::Conditioned, 2000)?;
    report(&rt, Set::Cancelling, 2000)?;
    report(&rt, Set::Powers, 1990)?;
    report(&rt, Set::Extremes, 8)?;
    report_refusal(&rt)?;
    let pairing = size_of::<PairingTable>();
    let columns = size_of::<ColumnTable>();
    println!(rt; "bytes: pairing table {pairing}, column table {columns}")
}
