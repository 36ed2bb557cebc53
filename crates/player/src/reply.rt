//! What a step answers, and how that is printed.
use numbers::refusal::Refusal;
use std::fmt;

/// The answer to a step.
#[derive(Clone, Copy)]
pub enum Reply {
    Done,
    Refused(Refusal),
    Pattern(u64),
    Number(u64),
    /// The state does not allow the step.
    NotAllowed,
    /// The line writes no step.
    NoStep,
}

/// The answer of a call that enters products.
impl From<Result<(), Refusal>> for Reply {
    fn from(res: Result<(), Refusal>) -> Reply {
        res.map_or_else(Reply::Refused, |()| Reply::Done)
    }
}

/// The answer of a reading.
impl From<Result<u64, Refusal>> for Reply {
    fn from(res: Result<u64, Refusal>) -> Reply {
        res.map_or_else(Reply::Refused, Reply::Pattern)
    }
}

impl fmt::Display for Reply {
    fn fmt<W: fmt::Write>(&self, f: &mut fmt::Formatter<W>) -> fmt::Result {
        match *self {
            Reply::Done => write!(f, "ok"),
            Reply::Refused(refusal) => write!(f, "no {refusal}"),
            Reply::Pattern(pattern) => write!(f, "{pattern:016x}"),
            Reply::Number(number) => write!(f, "{number}"),
            Reply::NotAllowed => write!(f, "state"),
            Reply::NoStep => write!(f, "step"),
        }
    }
}
