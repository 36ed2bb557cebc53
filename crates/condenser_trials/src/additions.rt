//! How many binary64 additions the puts of a set make. Each addition empties a place, so a put made as many as places that were occupied have changed.
use crate::pieces::{Order, Set, piece_at};
use condensers::condenser::Condenser;
use condensers::pairing_table::PairingTable;
use numbers::piece::Summand;
use std::fmt;

const PLACES: usize = 4096;

/// What was counted.
#[derive(Clone, Copy)]
pub(crate) struct Additions {
    all: usize,
    most: usize,
    occupied: usize,
}

impl fmt::Display for Additions {
    fn fmt<W: fmt::Write>(&self, f: &mut fmt::Formatter<W>) -> fmt::Result {
        let all = self.all;
        let most = self.most;
        let occupied = self.occupied;
        write!(
            f,
            "{all} additions, at most {most} in one put, {occupied} places occupied at the end"
        )
    }
}

/// How many places that were occupied have changed; the places are then as the table has them.
fn changed(places: &mut [Summand], table: &PairingTable) -> usize {
    // counted in the loop that writes each place
    let mut made: usize = 0;
    for (k, place) in places.iter_mut().enumerate() {
        let now = table.summand(k as u64);
        if place.significand != 0 && *place != now {
            made = made.wrapping_add(1);
        }
        *place = now;
    }
    made
}

fn occupied(places: &[Summand]) -> usize {
    places.iter().filter(|place| place.significand != 0).count()
}

pub(crate) fn count_additions(set: Set, order: Order, count: u32) -> Additions {
    let mut table = PairingTable::new();
    let mut places = [Summand::ZERO; PLACES];
    let mut all: usize = 0;
    let mut most: usize = 0;
    for i in 0..count {
        let _ = table.put(piece_at(set, order.index(i, count)));
        let made = changed(&mut places, &table);
        all = all.wrapping_add(made);
        most = most.max(made);
    }
    Additions {
        all,
        most,
        occupied: occupied(&places),
    }
}
