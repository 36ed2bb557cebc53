//! The queues of the two receivers: what each of them is asked to do.
use readings::forms::{Direction, Form, Width};
use runs::queue::{Call, Elements, Leg};

const NEAREST_LONG: Form = Form {
    direction: Direction::Nearest,
    width: Width::Long,
};

const DOWN_SHORT: Form = Form {
    direction: Direction::Down,
    width: Width::Short,
};

const UP_LONG: Form = Form {
    direction: Direction::Up,
    width: Width::Long,
};

/// 2^53 × 1, 1 × 1 and 3 × 5, a refused batch, and −9 withdrawn by a line.
const EARLY_CALLS: [Call<'static>; 4] = [
    Call::Take(
        Elements::Patterns(&[0x4340_0000_0000_0000, 0x3ff0_0000_0000_0000]),
        Elements::Counts(&[1, 1]),
    ),
    Call::Take(Elements::Counts(&[3]), Elements::Counts(&[5])),
    Call::Take(Elements::Counts(&[1, 2, 3]), Elements::Counts(&[1, 2])),
    Call::SheetLine(b"sub\tc-3\tc3"),
];

/// Two calls with several faults each, −2^-484 × 2^-484, and 2^53 taken once more and withdrawn.
const LATE_CALLS: [Call<'static>; 5] = [
    Call::Take(
        Elements::Patterns(&[0x3ff0_0000_0400_0000, 0x7ff8_0000_0000_0000]),
        Elements::Counts(&[67_108_865, 1]),
    ),
    Call::SheetLine(b"add\tp7ff8000000000000\tc2147483648"),
    Call::Take(
        Elements::Patterns(&[0xa1b0_0000_0000_0000]),
        Elements::Patterns(&[0x21b0_0000_0000_0000]),
    ),
    Call::SheetLine(b"add\tp4340000000000000\tc1"),
    Call::Withdraw(
        Elements::Counts(&[67_108_864]),
        Elements::Counts(&[134_217_728]),
    ),
];

const EARLY: Leg<'static> = Leg {
    calls: &EARLY_CALLS,
    readings: &[NEAREST_LONG, DOWN_SHORT],
};

const LATE: Leg<'static> = Leg {
    calls: &LATE_CALLS,
    readings: &[UP_LONG],
};

/// The first receiver's queue.
pub const FIRST: [Leg<'static>; 2] = [EARLY, LATE];

/// The same products in another order, other batches and other kinds.
const SECOND_CALLS: [Call<'static>; 5] = [
    Call::SheetLine(b"add\tp21a0000000000000\tpa1c0000000000000"),
    Call::Take(
        Elements::Counts(&[15, 1]),
        Elements::Patterns(&[0x3ff0_0000_0000_0000, 0x3ff0_0000_0000_0000]),
    ),
    Call::SheetLine(b"add\tc1"),
    Call::Withdraw(
        Elements::Counts(&[9]),
        Elements::Patterns(&[0xbff0_0000_0000_0000]),
    ),
    Call::Take(
        Elements::Patterns(&[0x4350_0000_0000_0000]),
        Elements::Patterns(&[0x3fe0_0000_0000_0000]),
    ),
];

/// The second receiver's queue.
pub const SECOND: [Leg<'static>; 1] = [Leg {
    calls: &SECOND_CALLS,
    readings: &[],
}];

/// 2^-484 × 2^-484, which the second receiver did not hear.
const MORE: [Call<'static>; 1] = [Call::Take(
    Elements::Patterns(&[0x21b0_0000_0000_0000]),
    Elements::Patterns(&[0x21b0_0000_0000_0000]),
)];

/// The first receiver's queue with one product above zero more.
pub const FIRST_WITH_MORE: [Leg<'static>; 3] = [
    EARLY,
    LATE,
    Leg {
        calls: &MORE,
        readings: &[],
    },
];
