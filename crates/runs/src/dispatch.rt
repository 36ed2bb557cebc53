//! A call of a queue, made on an open run.
ghost use Rattle.std.specs.Prelude.{map};
ghost use Rattle.runs.specs.Calls.{Made, slices};
ghost use Rattle.runs.specs.Entering.{is_withdrawn};
ghost use Rattle.runs.specs.Queues.{value_call, values_of};

use crate::entering::Entering;
use crate::queue::{Call, Elements};
use crate::run::Open;
use condensers::condenser::Condenser;
use numbers::counts::Counts;
use numbers::kind::Kind;
use numbers::patterns::Patterns;
use numbers::refusal::Refusal;

impl<C: Condenser + Drop> Open<C> {
    /// Makes one call.
    pub fn call(&mut self, call: &Call) -> Result<(), Refusal>
        ensures call { Made C.Condenser self.old.condenser self.new.condenser (value_call call.now) result }
    {
        match call {
            Call::Take(firsts, seconds) => self.enter_elements(Entering::Taken, firsts, seconds),
            Call::Withdraw(firsts, seconds) => self.enter_elements(
                Entering::Withdrawn,
                firsts,
                seconds,
            ),
            Call::SheetLine(line) => self.enter(line),
        }
    }

    /// The call on slices of the kinds that the elements have.
    fn enter_elements(
        &mut self,
        entering: Entering,
        firsts: &Elements,
        seconds: &Elements,
    ) -> Result<(), Refusal>
        ensures call { Made C.Condenser self.old.condenser self.new.condenser (slices (is_withdrawn entering) (values_of firsts.now) (values_of seconds.now)) result }
    {
        match firsts {
            Elements::Patterns(firsts) => self.enter_seconds::<Patterns>(entering, firsts, seconds),
            Elements::Counts(firsts) => self.enter_seconds::<Counts>(entering, firsts, seconds),
        }
    }

    /// The call on a slice of a kind and one of the kind that its elements have.
    fn enter_seconds<K: Kind>(
        &mut self,
        entering: Entering,
        firsts: &[K::Element],
        seconds: &Elements,
    ) -> Result<(), Refusal>
        ensures call { Made C.Condenser self.old.condenser self.new.condenser (slices (is_withdrawn entering) (map K.Kind.value firsts.now) (values_of seconds.now)) result }
    {
        match seconds {
            Elements::Patterns(seconds) => self.enter_slices::<K, Patterns>(
                entering, firsts, seconds,
            ),
            Elements::Counts(seconds) => self.enter_slices::<K, Counts>(entering, firsts, seconds),
        }
    }

    /// The call on two slices of two kinds, as any program makes it.
    fn enter_slices<K: Kind, L: Kind>(
        &mut self,
        entering: Entering,
        firsts: &[K::Element],
        seconds: &[L::Element],
    ) -> Result<(), Refusal>
        ensures call { Made C.Condenser self.old.condenser self.new.condenser (slices (is_withdrawn entering) (map K.Kind.value firsts.now) (map L.Kind.value seconds.now)) result }
    {
        match entering {
            Entering::Taken => self.take::<K, L>(firsts, seconds),
            Entering::Withdrawn => self.withdraw::<K, L>(firsts, seconds),
        }
    }
}
