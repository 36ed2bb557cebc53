//! What an exported call answers, in numbers.
ghost use Rattle.std.specs.Prelude.{◌≡◌};
ghost use Rattle.exports.specs.Answers.{told, unformed};

use numbers::refusal::Refusal;

/// A value where `code` is 0, and else the code, the place and the side of a refusal.
// numbers and no Result: C reads them
#[repr(C)]
#[derive(Clone, Copy, PartialEq, Eq, Debug)]
pub struct Answer {
    pub code: u64,
    pub place: u64,
    pub side: u64,
    pub value: u64,
}

/// The numbers of a result.
impl From<Result<u64, Refusal>> for Answer {
    ghost from_gives = { λ res r. r ≡ told res };

    fn from(res: Result<u64, Refusal>) -> Answer {
        match res {
            Ok(value) => Answer {
                code: 0,
                place: 0,
                side: 0,
                value,
            },
            Err(refusal) => Answer {
                code: refusal.reason.code(),
                place: refusal.place,
                side: refusal.side.number(),
                value: 0,
            },
        }
    }
}

impl Answer {
    /// The answer to numbers that stand for no form.
    pub(crate) fn no_form() -> Answer
        ensures answer { result ≡ unformed }
    {
        Answer {
            code: 255,
            place: 0,
            side: 0,
            value: 0,
        }
    }
}
