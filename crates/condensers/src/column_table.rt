//! The column table: a condenser of 64 signed columns, column j weighing 2^(32 j) units, that takes pieces in parts of 32 bits without carries.
ghost use Rattle.std.specs.Prelude.{◌≡◌, ℕ, ◌+◌, ◌*◌, ◌%◌, ◌^◌, ◌<◌, ◌≤◌, length, pos, ◌+ℤ◌, slice_index_or, slice_set, unsigned_abs};
ghost use Rattle.std.proofs.Common.{lit≤};
ghost use Rattle.numbers.specs.Units.{rank, signed};
ghost use Rattle.numbers.specs.Products.{piece_units};
ghost use Rattle.condensers.specs.Meaning.{PutAnswer, PutAfter};
ghost use Rattle.condensers.specs.Columns.{column_total, low_summand, high_summand, empty_columns, Gains, PutGains, summands_from};
ghost use Rattle.condensers.specs.Laws.{columns_few, columns_exact};

use crate::condenser::{CAPACITY, Condenser, refuse_if_full};
use crate::units::summand_at;
use numbers::piece::{Piece, Summand};
use numbers::refusal::Refusal;

const COLUMNS: usize = 64;

/// One more than the largest part.
const PART: u64 = 0x1_0000_0000;

/// Signed columns of growing weight. Each put adds at most one part to a column, so no column can overflow.
#[derive(Drop)]
pub struct ColumnTable {
    columns: [i64; COLUMNS],
    count: u32,
    ghost long: { length columns ≡ 64 },
    ghost bounded: { (j : ℕ) → unsigned_abs (slice_index_or columns j (pos 0)) ≤ count * 4294967295 },
    ghost few: { count ≤ 67108864 },
}

/// The columns of a table with nothing in it.
fn no_columns() -> [i64; COLUMNS]
    ensures total { column_total result ≡ pos 0 }
    ensures after { result ≡ empty_columns }
    ensures limits { (length result ≡ 64) × (((j : ℕ) → unsigned_abs (slice_index_or result j (pos 0)) ≤ 0)) }
{
    [0; COLUMNS]
}

/// A part with the sign of its piece.
// chosen as a value: a branch is mispredicted where signs come at random
fn signed_part(negative: bool, part: u32) -> i64
    ensures value { result ≡ signed negative part }
{
    let size = i64::from(part);
    if negative { -size } else { size }
}

/// The low 32 bits of the size of the column at `place`.
fn low_summand(place: usize, column: i64) -> Summand
    requires { place < 64 }
    ensures answer { result ≡ low_summand place column }
{
    summand_at(column < 0, column.unsigned_abs() % PART, 32 * place as u32)
}

/// The rest of the size of the column at `place`, at 2^32 times its weight.
fn high_summand(place: usize, column: i64) -> Summand
    requires inside { place < 64 }
    requires within { unsigned_abs column ≤ 67108864 * 4294967295 }
    ensures answer { result ≡ high_summand place column }
{
    summand_at(
        column < 0,
        column.unsigned_abs() / PART,
        32 * place as u32 + 32,
    )
}

impl ColumnTable {
    /// A table with nothing in it.
    pub fn new() -> ColumnTable
        ensures total { column_total result.columns ≡ pos 0 }
        ensures count { result.count ≡ 0 }
        ensures after { result.columns ≡ empty_columns }
    {
        ColumnTable {
            columns: no_columns(),
            count: 0,
        }
    }

    /// Adds a part to a column, with a sign.
    fn add_part(&mut self, column: usize, negative: bool, part: u32)
        requires inside { column < 64 }
        requires within { unsigned_abs (slice_index_or self.old.columns column (pos 0)) + 4294967295 ≤ self.old.count * 4294967295 }
        ensures after { self.new.columns ≡ slice_set self.old.columns column (slice_index_or self.old.columns column (pos 0) +ℤ signed negative part) }
        ensures count { self.new.count ≡ self.old.count }
    {
        self.columns[column] += signed_part(negative, part);
    }

    /// Takes a piece in, part by part. Its parts lie in at most three columns; where there is no third column, the third part is nothing.
    fn insert(&mut self, piece: Piece)
        requires { self.old.count < 67108864 }
        ensures total { column_total self.new.columns ≡ column_total self.old.columns +ℤ piece_units piece }
        ensures count { self.new.count ≡ self.old.count + 1 }
        ensures kept { Gains piece.negative (piece.significand * 2 ^ rank piece.exponent) self.old.columns self.new.columns }
    {
        let rank = Summand::from(piece).rank();
        let first = (rank / 32) as usize;
        let size = (piece.significand as u128) << (rank % 32);
        let part = PART as u128;
        self.count += 1;
        self.add_part(first, piece.negative, (size % part) as u32);
        self.add_part(first + 1, piece.negative, (size / part % part) as u32);
        if first + 2 < COLUMNS {
            self.add_part(first + 2, piece.negative, (size / part / part) as u32);
        }
    }
}

// each table writes its calls itself, see the trait
impl Condenser for ColumnTable {
    ghost total = { λ t. column_total t.columns };

    ghost count = { λ t. t.count };

    ghost capacity = { 67108864 };

    ghost summands = { λ t. summands_from 0 t.columns };

    ghost capacity_above = { lit≤ tt };

    ghost capacity_below = { lit≤ tt };

    ghost count_within = { λ t. t.few };

    ghost summands_few = { λ t. columns_few t.columns t.long };

    ghost summands_exact = { λ t. columns_exact t.columns t.count t.long t.bounded t.few };

    fn empty(&mut self)
        ensures total { column_total self.new.columns ≡ pos 0 }
        ensures count { self.new.count ≡ 0 }
        ensures after { self.new.columns ≡ empty_columns }
    {
        self.columns = no_columns();
        self.count = 0;
    }

    fn put(&mut self, piece: Piece) -> Result<(), Refusal>
        ensures answer { PutAnswer 67108864 self.old.count result }
        ensures after { PutAfter (λ t. column_total t.columns) (λ t. t.count) piece self.old self.new result }
        ensures kept { PutGains piece self.old.columns self.new.columns result }
    {
        refuse_if_full(self.count)?;
        self.insert(piece);
        Ok(())
    }

    fn put_count(&self) -> u64 {
        self.count as u64
    }

    fn put_limit(&self) -> u64 {
        CAPACITY as u64
    }

    fn summand_count(&self) -> u64 {
        2 * COLUMNS as u64
    }

    fn summand(&self, k: u64) -> Summand {
        let place = (k / 2) as usize;
        let Some(column) = self.columns.get(place) else {
            return Summand::ZERO;
        };
        if k % 2 == 0 {
            low_summand(place, *column)
        } else {
            high_summand(place, *column)
        }
    }
}
