//! The pairing table: a condenser that keeps binary64 numbers, each at the place of its exponent field and lowest fraction bit, and adds two of one place exactly.
ghost use Rattle.std.specs.Prelude.{◌≡◌, ◌+◌, ◌*◌, ◌<◌, ◌≤◌, T, map, length, pos, ◌+ℤ◌};
ghost use Rattle.std.proofs.Common.{lit≤};
ghost use Rattle.numbers.specs.Products.{piece_units};
ghost use Rattle.condensers.specs.Meaning.{PutAnswer, PutAfter};
ghost use Rattle.condensers.specs.Pairing.{float_units, size, total_of, sum_of, stand_from, piece_limit, summand_of, empty_table, Enters, PieceEnters, PutEnters};
ghost use Rattle.condensers.specs.Laws.{entries_few, entries_exact};

use crate::binary64::{sum_of_pair, summand_of};
use crate::condenser::{CAPACITY, Condenser, refuse_if_full};
use crate::finite::Finite;
use numbers::piece::{Piece, Summand};
use numbers::refusal::Refusal;

const PLACES: usize = 4096;

/// Binary64 numbers by place. An empty place holds +0; any other holds a number that belongs there.
#[derive(Drop)]
pub struct PairingTable {
    entries: [f64; PLACES],
    count: u32,
    ghost long: { length entries ≡ 4096 },
    ghost standing: { T (stand_from 0 entries) },
    ghost bounded: { sum_of size entries ≤ count * piece_limit },
    ghost few: { count ≤ 67108864 },
}

/// The places of a table with nothing in it.
fn no_entries() -> [f64; PLACES]
    ensures total { total_of result ≡ pos 0 }
    ensures after { result ≡ empty_table }
    ensures limits { (length result ≡ 4096) × ((T (stand_from 0 result)) × (sum_of size result ≤ 0)) }
{
    [0.0; PLACES]
}

impl PairingTable {
    /// A table with nothing in it.
    pub fn new() -> PairingTable
        ensures total { total_of result.entries ≡ pos 0 }
        ensures count { result.count ≡ 0 }
        ensures after { result.entries ≡ empty_table }
    {
        PairingTable {
            entries: no_entries(),
            count: 0,
        }
    }

    /// Takes a number in: while its place is occupied, it is added to what stands there and the place is emptied.
    fn enter(&mut self, number: Finite)
        requires { size number.number + sum_of size self.old.entries ≤ self.old.count * piece_limit }
        ensures total { total_of self.new.entries ≡ total_of self.old.entries +ℤ float_units number.number }
        ensures count { self.new.count ≡ self.old.count }
        ensures kept { Enters number.number self.old.entries self.new.entries }
    {
        let mut moving = number;
        while moving.number != 0.0 {
            let place = moving.place_of();
            let held = self.entries[place];
            if held == 0.0 {
                self.entries[place] = moving.number;
                return;
            }
            self.entries[place] = 0.0;
            moving = sum_of_pair(moving, Finite { number: held });
        }
    }

    /// Takes a piece in as the number of its value.
    fn insert(&mut self, piece: Piece)
        requires { self.old.count < 67108864 }
        ensures total { total_of self.new.entries ≡ total_of self.old.entries +ℤ piece_units piece }
        ensures count { self.new.count ≡ self.old.count + 1 }
        ensures kept { PieceEnters piece self.old.entries self.new.entries }
    {
        self.count += 1;
        self.enter(Finite::from(piece));
    }
}

// each table writes its calls itself, see the trait
impl Condenser for PairingTable {
    ghost total = { λ t. total_of t.entries };

    ghost count = { λ t. t.count };

    ghost capacity = { 67108864 };

    ghost summands = { λ t. map summand_of t.entries };

    ghost capacity_above = { lit≤ tt };

    ghost capacity_below = { lit≤ tt };

    ghost count_within = { λ t. t.few };

    ghost summands_few = { λ t. entries_few t.entries t.long };

    ghost summands_exact = { λ t. entries_exact t.entries t.count t.standing t.bounded t.few };

    fn empty(&mut self)
        ensures total { total_of self.new.entries ≡ pos 0 }
        ensures count { self.new.count ≡ 0 }
        ensures after { self.new.entries ≡ empty_table }
    {
        self.entries = no_entries();
        self.count = 0;
    }

    fn put(&mut self, piece: Piece) -> Result<(), Refusal>
        ensures answer { PutAnswer 67108864 self.old.count result }
        ensures after { PutAfter (λ t. total_of t.entries) (λ t. t.count) piece self.old self.new result }
        ensures kept { PutEnters piece self.old.entries self.new.entries result }
    {
        refuse_if_full(self.count)?;
        self.insert(piece);
        Ok(())
    }

    fn put_count(&self) -> u64 {
        self.count as u64
    }

    fn put_limit(&self) -> u64 {
        CAPACITY as u64
    }

    fn summand_count(&self) -> u64 {
        PLACES as u64
    }

    fn summand(&self, k: u64) -> Summand {
        match self.entries.get(k as usize) {
            Some(entry) => summand_of(Finite { number: *entry }),
            None => Summand::ZERO,
        }
    }
}
