//! The run that is played, open or sealed, on a condenser of one make or another, and the steps that each state allows.
ghost use Rattle.std.specs.Prelude.{◌≡◌, false};
ghost use Rattle.player.specs.Played.{condenser_of, is_open, sort_of, enters, stays_open, opens};

use crate::reply::Reply;
use crate::step::{Step, Table};
use condensers::column_table::ColumnTable;
use condensers::condenser::Condenser;
use condensers::pairing_table::PairingTable;
use run_trials::duo::Duo;
use runs::run::{Open, Sealed};

/// A run over a condenser.
#[derive(Drop)]
pub enum Run<C> {
    Open(Open<C>),
    Sealed(Sealed<C>),
}

/// What is played: nothing before the first opening, and then a run.
#[derive(Drop)]
pub enum Player {
    Idle,
    Pairing(Run<PairingTable>),
    Column(Run<ColumnTable>),
    Duo(Run<Duo>),
}

impl Player {
    /// Makes a step, or leaves everything as it is where the state does not allow it.
    pub(crate) fn play(&mut self, step: &Step) -> Reply {
        if let Step::Open(table) = step {
            *self = Player::opened(*table);
            return Reply::Done;
        }
        match std::mem::replace(self, Player::Idle) {
            Player::Idle => Reply::NotAllowed,
            Player::Pairing(run) => self.play_on(run, step, Player::Pairing),
            Player::Column(run) => self.play_on(run, step, Player::Column),
            Player::Duo(run) => self.play_on(run, step, Player::Duo),
        }
    }

    /// Makes a step on a run of one make, and keeps the run after it.
    fn play_on<C: Condenser + Drop, F: FnOnce(Run<C>) -> Player>(
        &mut self,
        run: Run<C>,
        step: &Step,
        player: F,
    ) -> Reply
        requires call { F.IsAlwaysCallable player }
    {
        let (next, reply) = run.step(step);
        *self = player(next);
        reply
    }

    fn opened(table: Table) -> Player {
        match table {
            Table::Pairing => Player::Pairing(Run::Open(Open::new(PairingTable::new()))),
            Table::Column => Player::Column(Run::Open(Open::new(ColumnTable::new()))),
            Table::Duo => Player::Duo(Run::Open(Open::new(Duo::Empty))),
        }
    }
}

impl<C: Condenser + Drop> Run<C> {
    /// The run after a step, and the answer.
    fn step(self, step: &Step) -> (Run<C>, Reply) {
        match self {
            Run::Open(run) => open_step(run, step),
            Run::Sealed(run) => sealed_step(run, step),
        }
    }
}

/// A step on an open run: a call, or the seal.
fn open_step<C: Condenser + Drop>(run: Open<C>, step: &Step) -> (Run<C>, Reply)
    ensures unchanged { enters (sort_of step.now) ≡ false → condenser_of result.0 ≡ run.condenser }
    ensures after { is_open result.0 ≡ stays_open (sort_of step.now) }
{
    if let Step::Seal = step {
        return (Run::Sealed(run.seal()), Reply::Done);
    }
    let mut run = run;
    let reply = match step.call() {
        Some(call) => Reply::from(run.call(&call)),
        None => Reply::NotAllowed,
    };
    (Run::Open(run), reply)
}

/// A step on a sealed run: a reading, the count, or the resumption.
fn sealed_step<C: Condenser + Drop>(run: Sealed<C>, step: &Step) -> (Run<C>, Reply)
    ensures unchanged { condenser_of result.0 ≡ run.condenser }
    ensures after { is_open result.0 ≡ opens (sort_of step.now) }
{
    let reply = match step {
        Step::Resume => return (Run::Open(run.resume()), Reply::Done),
        Step::Read(form) => Reply::from(run.read(*form)),
        Step::Count => Reply::Number(run.products()),
        _ => Reply::NotAllowed,
    };
    (Run::Sealed(run), reply)
}
