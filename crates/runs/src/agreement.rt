//! Two receivers: their queues played over condensers of any make, and their long readings.
ghost use Rattle.std.specs.Prelude.{◌≡◌, length};
ghost use Rattle.std.specs.Float.{binary64};
ghost use Rattle.readings.specs.Rounding.{Rounds};
ghost use Rattle.runs.specs.Agreement.{Agree, AgreementByValues};
ghost use Rattle.runs.specs.Queues.{bag_of, calls_of, answers_of, written};

use crate::play::play;
use crate::queue::{Answer, Leg};
use crate::run::Sealed;
use condensers::condenser::Condenser;
use readings::forms::Direction;

/// What a receiver reports: its long reading and the products that it entered.
#[derive(Clone, Copy, PartialEq, Eq, Debug)]
pub struct Report {
    pub reading: u64,
    pub products: u64,
}

/// The reports of two receivers.
#[derive(Clone, Copy, PartialEq, Eq, Debug)]
pub struct Reports {
    pub first: Report,
    pub second: Report,
}

impl<C: Condenser + Drop> Sealed<C> {
    /// The run's long reading and the products that were entered.
    pub fn report(&self, direction: Direction) -> Report
        ensures value { Rounds binary64 direction (C.Condenser.total self.now.condenser) result.reading }
        ensures count { result.products ≡ C.Condenser.count self.now.condenser }
    {
        Report {
            reading: self.read_long(direction),
            products: self.products(),
        }
    }
}

/// Plays two queues, each over a condenser of its own make, and reads both totals in a direction.
/// Where every number has the same net count in both bags, both readings are the same bits. Where the first bag has at least as many of every number
/// above zero and as many of every number below, the first reading is not below the second.
// no struct for a condenser, its queue and its buffer: a contract names what such a struct holds by position alone
pub fn compare_queues<C: Condenser + Drop, D: Condenser + Drop>(
    first: C,
    first_queue: &[Leg],
    first_answers: &mut [Answer],
    second: D,
    second_queue: &[Leg],
    second_answers: &mut [Answer],
    direction: Direction,
) -> Reports
    ensures law { Agree direction (bag_of C.Condenser.capacity (calls_of first_queue.now)) (bag_of D.Condenser.capacity (calls_of second_queue.now)) result.first.reading result.second.reading }
    ensures count { (result.first.products ≡ length (bag_of C.Condenser.capacity (calls_of first_queue.now))) × (result.second.products ≡ length (bag_of D.Condenser.capacity (calls_of second_queue.now))) }
    ensures answer { (first_answers.new ≡ written first_answers.old 0 (answers_of C.Condenser.capacity (calls_of first_queue.now))) × (second_answers.new ≡ written second_answers.old 0 (answers_of D.Condenser.capacity (calls_of second_queue.now))) }
{
    read_both(
        first,
        first_queue,
        first_answers,
        second,
        second_queue,
        second_answers,
        direction,
    )
}

/// Both queues played, and both totals read.
// the parameters of compare_queues
fn read_both<C: Condenser + Drop, D: Condenser + Drop>(
    first: C,
    first_queue: &[Leg],
    first_answers: &mut [Answer],
    second: D,
    second_queue: &[Leg],
    second_answers: &mut [Answer],
    direction: Direction,
) -> Reports
    ensures law { Agree direction (bag_of C.Condenser.capacity (calls_of first_queue.now)) (bag_of D.Condenser.capacity (calls_of second_queue.now)) result.first.reading result.second.reading }
    ensures count { (result.first.products ≡ length (bag_of C.Condenser.capacity (calls_of first_queue.now))) × (result.second.products ≡ length (bag_of D.Condenser.capacity (calls_of second_queue.now))) }
    ensures answer { (first_answers.new ≡ written first_answers.old 0 (answers_of C.Condenser.capacity (calls_of first_queue.now))) × (second_answers.new ≡ written second_answers.old 0 (answers_of D.Condenser.capacity (calls_of second_queue.now))) }
{
    let one = play(first, first_queue, first_answers);
    let other = play(second, second_queue, second_answers);
    Reports {
        first: one.report(direction),
        second: other.report(direction),
    }
}

/// The agreement over the values of elements, whatever kinds they are of.
pub fn agreement_by_values()
    ensures law { AgreementByValues }
{}
