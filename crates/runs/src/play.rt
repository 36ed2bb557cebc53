//! Playing a queue through a run: legs of calls, each sealed, read and resumed.
ghost use Rattle.std.specs.Prelude.{◌≡◌, ◌+◌, List, ◌++◌, map, length, if◌then◌else◌, nat_lt, slice_set};
ghost use Rattle.runs.specs.Bags.{Entry, exact_sum};
ghost use Rattle.runs.specs.Calls.{Outcome, Says, ValueCall};
ghost use Rattle.runs.specs.Queues.{value_call, calls_of, bag_of, told, ToldOnce, answer_of, answers_of, written, Holds, Resumes};

use crate::queue::{Answer, Call, Leg};
use crate::run::{Open, Sealed};
use condensers::condenser::Condenser;
use numbers::refusal::Refusal;
use readings::forms::Form;

impl Answer {
    /// The numbers of what a call answered.
    pub fn of(res: Result<(), Refusal>) -> Answer
        ensures answer { (o : Outcome) → Says o res → result ≡ answer_of o }
        ensures value { result ≡ told res }
    {
        match res {
            Ok(()) => Answer {
                code: 0,
                place: 0,
                side: 0,
            },
            Err(refusal) => Answer {
                code: refusal.reason.code(),
                place: refusal.place,
                side: refusal.side.number(),
            },
        }
    }
}

/// Writes an answer at `next` where that lies in the buffer, and gives the place behind it.
// by place: nothing is known of what is written through an iterator that goes on from leg to leg
fn note(answers: &mut [Answer], next: usize, answer: Answer) -> usize
    ensures after { answers.new ≡ slice_set answers.old next answer }
    ensures answer { result ≡ (if nat_lt next (length answers.old) then next + 1 else next) }
{
    if next < answers.len() {
        answers[next] = answer;
        return next + 1;
    }
    next
}

/// Makes the calls of a leg.
fn play_calls<C: Condenser + Drop>(
    run: &mut Open<C>,
    calls: &[Call],
    answers: &mut [Answer],
    next: usize,
) -> usize
    ensures after { (bag : List Entry) (rest : List ValueCall) → Holds C.Condenser run.old.condenser bag → Resumes C.Condenser (map value_call calls.now ++ rest) bag answers.old next rest run.new.condenser answers.new result }
{
    let mut place = next;
    for call in calls {
        let answer = Answer::of(run.call(call));
        place = note(answers, place, answer);
    }
    place
}

/// Reads a sealed run in each of the forms. The answers are not kept.
fn read_all<C: Condenser + Drop>(run: &Sealed<C>, forms: &[Form]) {
    for form in forms {
        let _ = run.read(*form);
    }
}

/// Plays a queue over a condenser: opens a run, makes the calls of each leg, seals, reads and resumes, and seals at the end.
/// The calls' answers are written into `answers`, as many as fit.
#[tactic(auto, using(crate::proofs::Told::told_once))]
pub fn play<C: Condenser + Drop>(condenser: C, queue: &[Leg], answers: &mut [Answer]) -> Sealed<C>
    ensures total { C.Condenser.total result.condenser ≡ exact_sum (bag_of C.Condenser.capacity (calls_of queue.now)) }
    ensures count { C.Condenser.count result.condenser ≡ length (bag_of C.Condenser.capacity (calls_of queue.now)) }
    ensures answer { answers.new ≡ written answers.old 0 (answers_of C.Condenser.capacity (calls_of queue.now)) }
    ensures law { ToldOnce }
{
    play_legs(condenser, queue, answers)
}

/// The legs one after the other.
fn play_legs<C: Condenser + Drop>(condenser: C, queue: &[Leg], answers: &mut [Answer]) -> Sealed<C>
    ensures total { C.Condenser.total result.condenser ≡ exact_sum (bag_of C.Condenser.capacity (calls_of queue.now)) }
    ensures count { C.Condenser.count result.condenser ≡ length (bag_of C.Condenser.capacity (calls_of queue.now)) }
    ensures answer { answers.new ≡ written answers.old 0 (answers_of C.Condenser.capacity (calls_of queue.now)) }
{
    let mut run = Open::new(condenser);
    let mut next = 0;
    for leg in queue {
        next = play_calls(&mut run, leg.calls, answers, next);
        let sealed = run.seal();
        read_all(&sealed, leg.readings);
        run = sealed.resume();
    }
    run.seal()
}
