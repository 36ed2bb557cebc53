//! Queues of calls as data: what a run is asked to do, from its opening to its last reading.
use readings::forms::Form;

/// The elements of a slice, of one kind or another.
#[derive(Clone, Copy)]
pub enum Elements<'a> {
    Patterns(&'a [u64]),
    Counts(&'a [i32]),
}

/// A call on an open run.
#[derive(Clone, Copy)]
pub enum Call<'a> {
    Take(Elements<'a>, Elements<'a>),
    Withdraw(Elements<'a>, Elements<'a>),
    SheetLine(&'a [u8]),
}

/// The numbers of an answer: code, place and side, all zero where the call was accepted.
#[derive(Clone, Copy, PartialEq, Eq, Debug)]
pub struct Answer {
    pub code: u64,
    pub place: u64,
    pub side: u64,
}

/// A part of a queue: calls on an open run, which is then sealed and read in each of the forms.
#[derive(Clone, Copy)]
pub struct Leg<'a> {
    pub calls: &'a [Call<'a>],
    pub readings: &'a [Form],
}
