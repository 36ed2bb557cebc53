//! What a run answers that has room for two products.
use crate::duo::Duo;
use condensers::column_table::ColumnTable;
use numbers::counts::Counts;
use numbers::patterns::Patterns;
use readings::forms::Direction;
use runs::agreement::compare_queues;
use runs::queue::{Answer, Call, Elements, Leg};
use runs::run::Open;

const ACCEPTED: Answer = Answer {
    code: 0,
    place: 0,
    side: 0,
};

/// The refusal with code 4 of a run that has room for so many products.
fn full(room: u64) -> Answer {
    Answer {
        code: 4,
        place: room,
        side: 0,
    }
}

#[test]
fn three_products_do_not_fit(rt: HostRuntime) {
    let mut run = Open::new(Duo::Empty);
    let three = run.take::<Counts, Counts>(&[1, 2, 3], &[1, 1, 1]);
    assert_eq!(rt; Answer::of(three), full(2));
    let two = run.withdraw::<Counts, Counts>(&[1, 2], &[1, 1]);
    assert_eq!(rt; Answer::of(two), ACCEPTED);
    let none = run.take::<Patterns, Counts>(&[], &[]);
    assert_eq!(rt; Answer::of(none), ACCEPTED);
    let sealed = run.seal();
    assert_eq!(rt; sealed.products(), 2);
    assert_eq!(rt; sealed.read_long(Direction::Nearest), 0xc008_0000_0000_0000);
}

/// The lengths are tested before the room, the room before the elements, and the text of a line before the room.
const CALLS: [Call<'static>; 7] = [
    Call::Take(Elements::Counts(&[5]), Elements::Counts(&[7])),
    Call::Take(Elements::Counts(&[1, 2, 3]), Elements::Counts(&[1, 2])),
    Call::Take(
        Elements::Patterns(&[0x7ff0_0000_0000_0000, 0x3ff0_0000_0000_0000]),
        Elements::Counts(&[67_108_865, 1]),
    ),
    Call::SheetLine(b"sub\tc-3\tc1"),
    Call::SheetLine(b"add\tp7ff8000000000000\tc1"),
    Call::SheetLine(b"add\tc1"),
    Call::SheetLine(b"add\tc2147483648\tc1"),
];

/// The answers to `CALLS`.
fn answers_to_calls() -> [Answer; 7] {
    [
        ACCEPTED,
        Answer {
            code: 3,
            place: 2,
            side: 2,
        },
        full(1),
        ACCEPTED,
        full(0),
        Answer {
            code: 5,
            place: 6,
            side: 0,
        },
        Answer {
            code: 6,
            place: 4,
            side: 1,
        },
    ]
}

const SMALL: [Leg<'static>; 1] = [Leg {
    calls: &CALLS,
    readings: &[],
}];

const LARGE_CALLS: [Call<'static>; 1] = [Call::Withdraw(
    Elements::Counts(&[-3]),
    Elements::Counts(&[1]),
)];

const MORE_CALLS: [Call<'static>; 1] = [Call::Take(
    Elements::Patterns(&[0x4014_0000_0000_0000]),
    Elements::Counts(&[7]),
)];

const LARGE: [Leg<'static>; 2] = [
    Leg {
        calls: &LARGE_CALLS,
        readings: &[],
    },
    Leg {
        calls: &MORE_CALLS,
        readings: &[],
    },
];

#[test]
fn a_full_run_agrees_with_a_large_one(rt: HostRuntime) {
    let mut answers = [ACCEPTED; 7];
    let reports = compare_queues(
        Duo::Empty,
        &SMALL,
        &mut answers,
        ColumnTable::new(),
        &LARGE,
        &mut [],
        Direction::Nearest,
    );
    assert_eq!(rt; reports.first, reports.second);
    assert_eq!(rt; reports.first.products, 2);
    // 35 + 3
    assert_eq!(rt; reports.first.reading, 0x4043_0000_0000_0000);
    assert_eq!(rt; answers, answers_to_calls());
}
