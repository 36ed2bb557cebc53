//! A column table that takes two pieces and no more.
ghost use Rattle.std.specs.Prelude.{◌≡◌, ◌≤◌};
ghost use Rattle.condensers.specs.Columns.{column_total, summands_from};
ghost use Rattle.std.proofs.Common.{lit≤};
ghost use Rattle.condensers.specs.Laws.{columns_few, columns_exact};

use condensers::column_table::ColumnTable;
use condensers::condenser::Condenser;
use numbers::piece::{Piece, Summand};
use numbers::refusal::{Reason, Refusal};

/// At most two pieces.
#[derive(Drop)]
pub(crate) struct Small {
    table: ColumnTable,
    ghost few: { table.count ≤ 2 },
}

impl Small {
    /// A condenser with nothing in it.
    pub(crate) fn new() -> Small
        ensures count { result.table.count ≡ 0 }
    {
        Small {
            table: ColumnTable::new(),
        }
    }
}

impl Condenser for Small {
    ghost total = { λ s. column_total s.table.columns };

    ghost count = { λ s. s.table.count };

    ghost capacity = { 2 };

    ghost summands = { λ s. summands_from 0 s.table.columns };

    ghost capacity_above = { lit≤ tt };

    ghost capacity_below = { lit≤ tt };

    ghost count_within = { λ s. s.few };

    ghost summands_few = { λ s. columns_few s.table.columns s.table.long };

    ghost summands_exact = { λ s. columns_exact s.table.columns s.table.count s.table.long s.table.bounded s.table.few };

    fn empty(&mut self) {
        self.table.empty();
    }

    fn put(&mut self, piece: Piece) -> Result<(), Refusal> {
        if self.table.put_count() == 2 {
            return Err(Refusal::at(Reason::Full, 0));
        }
        self.table.put(piece)
    }

    fn put_count(&self) -> u64 {
        self.table.put_count()
    }

    fn put_limit(&self) -> u64 {
        2
    }

    fn summand_count(&self) -> u64 {
        self.table.summand_count()
    }

    fn summand(&self, k: u64) -> Summand {
        self.table.summand(k)
    }
}
