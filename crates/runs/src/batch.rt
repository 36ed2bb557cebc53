//! Taking and withdrawing the products of two slices: all of them, or none.
ghost use Rattle.std.specs.Prelude.{◌≡◌, ◌+◌, ◌≤◌, true, false, map, length};
ghost use Rattle.runs.specs.Entering.{is_withdrawn};
ghost use Rattle.runs.specs.Calls.{Says, accepted, elements_outcome, product_entries, After, Made, slices};

use crate::checks::check_slices;
use crate::element::piece_at;
use crate::entering::Entering;
use crate::run::Open;
use condensers::condenser::Condenser;
use numbers::kind::Kind;
use numbers::refusal::Refusal;

impl<C: Condenser + Drop> Open<C> {
    // two slices and not one of pairs: each is lent as its caller has it, of any kind, and may differ in length
    // two calls, each with its name; the text of both is `enter_products`
    /// Takes the product of each index, or refuses and changes nothing.
    pub fn take<K: Kind, L: Kind>(
        &mut self,
        firsts: &[K::Element],
        seconds: &[L::Element],
    ) -> Result<(), Refusal>
        ensures call { Made C.Condenser self.old.condenser self.new.condenser (slices false (map K.Kind.value firsts.now) (map L.Kind.value seconds.now)) result }
    {
        self.enter_products::<K, L>(Entering::Taken, firsts, seconds)
    }

    /// Withdraws the product of each index, or refuses and changes nothing.
    pub fn withdraw<K: Kind, L: Kind>(
        &mut self,
        firsts: &[K::Element],
        seconds: &[L::Element],
    ) -> Result<(), Refusal>
        ensures call { Made C.Condenser self.old.condenser self.new.condenser (slices true (map K.Kind.value firsts.now) (map L.Kind.value seconds.now)) result }
    {
        self.enter_products::<K, L>(Entering::Withdrawn, firsts, seconds)
    }

    /// Tests everything, and then puts every product.
    fn enter_products<K: Kind, L: Kind>(
        &mut self,
        entering: Entering,
        firsts: &[K::Element],
        seconds: &[L::Element],
    ) -> Result<(), Refusal>
        ensures call { Made C.Condenser self.old.condenser self.new.condenser (slices (is_withdrawn entering) (map K.Kind.value firsts.now) (map L.Kind.value seconds.now)) result }
    {
        check_slices::<C, K, L>(&self.condenser, firsts, seconds)?;
        self.put_products::<K, L>(entering, firsts, seconds)
    }

    /// Puts the product of each index. Every test has passed, so none is refused.
    fn put_products<K: Kind, L: Kind>(
        &mut self,
        entering: Entering,
        firsts: &[K::Element],
        seconds: &[L::Element],
    ) -> Result<(), Refusal>
        requires same { length firsts.now ≡ length seconds.now }
        requires room { C.Condenser.count self.old.condenser + length firsts.now ≤ C.Condenser.capacity }
        requires sound { elements_outcome 0 (map K.Kind.value firsts.now) (map L.Kind.value seconds.now) ≡ accepted }
        ensures answer { Says accepted result }
        ensures after { After C.Condenser self.old.condenser self.new.condenser accepted (product_entries (is_withdrawn entering) (map K.Kind.value firsts.now) (map L.Kind.value seconds.now)) }
    {
        // an index loop: the products enter in the order of the index
        for i in 0..firsts.len() {
            let product = piece_at::<K, L>(firsts[i], seconds[i], i as u64)?;
            self.condenser.put(entering.piece(product))?;
        }
        Ok(())
    }
}
