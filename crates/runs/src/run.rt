//! Open and sealed runs over any condenser.
ghost use Rattle.std.specs.Prelude.{◌≡◌, pos};
ghost use Rattle.std.specs.Float.{binary64};
ghost use Rattle.readings.specs.Readings.{Reads};
ghost use Rattle.readings.specs.Rounding.{Rounds};

use condensers::condenser::Condenser;
use numbers::refusal::Refusal;
use readings::forms::{Direction, Form};
use readings::reading::read_total;
use readings::sums::ExactSum;

/// A run that takes products. Its total and its count are its condenser's.
#[derive(Drop)]
pub struct Open<C> {
    pub(crate) condenser: C,
}

/// A run that is read.
#[derive(Drop)]
pub struct Sealed<C> {
    pub(crate) condenser: C,
}

impl<C: Condenser + Drop> Open<C> {
    /// Opens a run over a condenser, which is emptied.
    pub fn new(condenser: C) -> Open<C>
        ensures total { C.Condenser.total result.condenser ≡ pos 0 }
        ensures count { C.Condenser.count result.condenser ≡ 0 }
    {
        let mut emptied = condenser;
        emptied.empty();
        Open { condenser: emptied }
    }

    /// Seals the run.
    pub fn seal(self) -> Sealed<C>
        ensures unchanged { result.condenser ≡ self.condenser }
    {
        let Open { condenser } = self;
        Sealed { condenser }
    }
}

impl<C: Condenser + Drop> Sealed<C> {
    // not one call with `seal`: the two states are types, and each call uses one up
    /// Opens the run again.
    pub fn resume(self) -> Open<C>
        ensures unchanged { result.condenser ≡ self.condenser }
    {
        let Sealed { condenser } = self;
        Open { condenser }
    }

    /// The run's total in a form.
    pub fn read(&self, form: Form) -> Result<u64, Refusal>
        ensures answer { Reads form (C.Condenser.total self.now.condenser) result }
    {
        read_total(&self.condenser, form)
    }

    /// The run's total as a long reading, which is never refused.
    pub fn read_long(&self, direction: Direction) -> u64
        ensures answer { Rounds binary64 direction (C.Condenser.total self.now.condenser) result }
    {
        ExactSum::of(&self.condenser).long(direction)
    }

    /// How many products were entered.
    pub fn products(&self) -> u64
        ensures answer { result ≡ C.Condenser.count self.now.condenser }
    {
        self.condenser.put_count()
    }
}
