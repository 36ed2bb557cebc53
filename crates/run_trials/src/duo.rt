//! A condenser that keeps at most two pieces, as they were put.
ghost use Rattle.std.specs.Prelude.{length, refl};
ghost use Rattle.condensers.specs.Meaning.{sum_units};
ghost use Rattle.std.proofs.Common.{lit≤};
ghost use Rattle.run_trials.specs.Duo.{kept};
ghost use Rattle.run_trials.specs.Laws.{kept_within, kept_few};

use condensers::condenser::Condenser;
use numbers::piece::{Piece, Summand};
use numbers::refusal::{Reason, Refusal};

/// The pieces put, as summands.
#[derive(Clone, Copy)]
pub enum Duo {
    Empty,
    One(Summand),
    Two(Summand, Summand),
}

impl Condenser for Duo {
    ghost total = { λ d. sum_units (kept d) };

    ghost count = { λ d. length (kept d) };

    ghost capacity = { 2 };

    ghost summands = { λ d. kept d };

    ghost capacity_above = { lit≤ tt };

    ghost capacity_below = { lit≤ tt };

    ghost count_within = { kept_within };

    ghost summands_few = { kept_few };

    ghost summands_exact = { λ _. refl };

    fn empty(&mut self) {
        *self = Duo::Empty;
    }

    fn put(&mut self, piece: Piece) -> Result<(), Refusal> {
        *self = match *self {
            Duo::Empty => Duo::One(Summand::from(piece)),
            Duo::One(first) => Duo::Two(first, Summand::from(piece)),
            Duo::Two(_, _) => return Err(Refusal::at(Reason::Full, 0)),
        };
        Ok(())
    }

    fn put_count(&self) -> u64 {
        match *self {
            Duo::Empty => 0,
            Duo::One(_) => 1,
            Duo::Two(_, _) => 2,
        }
    }

    fn put_limit(&self) -> u64 {
        2
    }

    fn summand_count(&self) -> u64 {
        self.put_count()
    }

    fn summand(&self, k: u64) -> Summand {
        match (*self, k) {
            (Duo::One(first), 0) | (Duo::Two(first, _), 0) => first,
            (Duo::Two(_, second), 1) => second,
            _ => Summand::ZERO,
        }
    }
}
