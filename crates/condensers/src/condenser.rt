//! The condenser trait: a total, a count of pieces put, and the summands handed out.
ghost use Rattle.std.specs.Prelude.{◌≡◌, ℕ, ◌≤◌, List, length, ℤ, pos};
ghost use Rattle.numbers.specs.declared.piece.Summand.{Summand};
ghost use Rattle.condensers.specs.Meaning.{sum_units, StandsAt, PutAnswer, PutAfter};

use numbers::piece::{Piece, Summand};
use numbers::refusal::{Reason, Refusal};

/// The most pieces that a table takes.
pub(crate) const CAPACITY: u32 = 67_108_864;

/// Refuses one piece more where a table has taken all that it can.
pub(crate) fn refuse_if_full(count: u32) -> Result<(), Refusal>
    requires { count ≤ 67108864 }
    ensures answer { PutAnswer 67108864 count result }
{
    if count == CAPACITY {
        return Err(Refusal::at(Reason::Full, 0));
    }
    Ok(())
}

/// A condenser: something that takes pieces and keeps their exact sum.
/// It means a total in units of 2^-1074, a count of the pieces put since it was emptied, and the list of summands that it hands out.
pub trait Condenser {
    ghost total: { Self → ℤ };

    ghost count: { Self → ℕ };
    /// How many pieces can be put.
    ghost capacity: { ℕ };

    ghost summands: { Self → List Summand };

    /// Forgets every piece.
    fn empty(&mut self)
        ensures total { total self.new ≡ pos 0 }
        ensures count { count self.new ≡ 0 };

    // no bodies here: each table has an array and a count of its own, tied by one invariant, and its calls promise what they leave in them
    /// Adds one piece, or refuses it where the capacity is reached.
    fn put(&mut self, piece: Piece) -> Result<(), Refusal>
        ensures answer { PutAnswer capacity (count self.old) result }
        ensures after { PutAfter total count piece self.old self.new result };

    /// How many pieces were put.
    fn put_count(&self) -> u64
        ensures answer { result ≡ count self.now };

    /// How many pieces can be put into an empty one.
    fn put_limit(&self) -> u64
        ensures answer { result ≡ capacity };

    /// How many summands are handed out.
    fn summand_count(&self) -> u64
        ensures answer { result ≡ length (summands self.now) };

    /// The summand at `k`, or the zero summand past the last one.
    fn summand(&self, k: u64) -> Summand
        ensures answer { StandsAt (summands self.now) k result };

    ghost capacity_above: { 1 ≤ capacity };

    ghost capacity_below: { capacity ≤ 67108864 };

    ghost count_within: { (c : Self) → count c ≤ capacity };

    ghost summands_few: { (c : Self) → length (summands c) ≤ 4096 };

    ghost summands_exact: { (c : Self) → sum_units (summands c) ≡ total c };
}
