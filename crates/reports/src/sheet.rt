//! A sheet under way: the run that its lines enter, and the line that is not ended yet.
use runs::run::Open;
use sheets::splitter::Splitter;

/// A sheet of which some bytes have come in.
#[derive(Drop)]
pub struct Sheet<C> {
    pub(crate) run: Open<C>,
    pub(crate) lines: Splitter,
}

/// A line that was refused: its number, counted from 1, and the code, the place and the side of the refusal.
#[derive(Clone, Copy, PartialEq, Eq, Debug)]
pub struct RefusedLine {
    pub line: u64,
    pub code: u64,
    pub place: u64,
    pub side: u64,
}

/// What feeding a chunk did: how many of its bytes were taken, and the line that they ended, if it was refused.
#[derive(Clone, Copy)]
pub struct Fed {
    pub taken: usize,
    pub refused: Option<RefusedLine>,
}
