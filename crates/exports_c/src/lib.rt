//! The calls of `exports` under names for C: each hands its arguments on, and promises what the call of the library does.
#![tactic(auto)]

ghost use Rattle.std.specs.Prelude.{map};
ghost use Rattle.numbers.specs.Counts.{count_value};
ghost use Rattle.numbers.specs.Patterns.{pattern_value};
ghost use Rattle.exports.specs.Answers.{Dot, Report};

// a function for each pair of kinds, and forms by their numbers: C has no generic functions and none of these types
use exports::answer::Answer;
use exports::dot::total_dot;
use exports::sheet;
use numbers::counts::Counts;
use numbers::patterns::Patterns;

/// The sum of the products of two slices of binary64 patterns.
#[unsafe(no_mangle)]
pub extern "C" fn total_dot_patterns(
    firsts: &[u64],
    seconds: &[u64],
    direction: u32,
    width: u32,
) -> Answer
    ensures answer { Dot (map pattern_value firsts.now) (map pattern_value seconds.now) direction width result }
{
    total_dot::<Patterns, Patterns>(firsts, seconds, direction, width)
}

/// The sum of the products of two slices of counts.
#[unsafe(no_mangle)]
pub extern "C" fn total_dot_counts(
    firsts: &[i32],
    seconds: &[i32],
    direction: u32,
    width: u32,
) -> Answer
    ensures answer { Dot (map count_value firsts.now) (map count_value seconds.now) direction width result }
{
    total_dot::<Counts, Counts>(firsts, seconds, direction, width)
}

/// The sum of the products of a slice of binary64 patterns and one of counts.
#[unsafe(no_mangle)]
pub extern "C" fn total_dot_patterns_counts(
    firsts: &[u64],
    seconds: &[i32],
    direction: u32,
    width: u32,
) -> Answer
    ensures answer { Dot (map pattern_value firsts.now) (map count_value seconds.now) direction width result }
{
    total_dot::<Patterns, Counts>(firsts, seconds, direction, width)
}

/// Writes the reports of a sheet, one behind the other, and tells how many bytes they have; or refuses a slice that is too short, which then stays as it was.
#[unsafe(no_mangle)]
pub extern "C" fn total_report(sheet: &[u8], out: &mut [u8]) -> Answer
    ensures answer { Report sheet.now out.old out.new result }
{
    sheet::total_report(sheet, out)
}
