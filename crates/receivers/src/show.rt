//! The calls of a queue, their answers and the forms of readings as plain text.
use readings::forms::Form;
use runs::queue::{Answer, Call, Elements};
use std::fmt;

/// A call as one step of a text queue.
#[derive(Clone, Copy)]
pub struct CallText<'a>(pub &'a Call<'a>);

impl<'a> fmt::Display for CallText<'a> {
    fn fmt<W: fmt::Write>(&self, f: &mut fmt::Formatter<W>) -> fmt::Result {
        let (word, firsts, seconds) = match *self.0 {
            Call::SheetLine(line) => return write!(f, "line {}", line.escape_ascii()),
            Call::Take(firsts, seconds) => ("take", firsts, seconds),
            Call::Withdraw(firsts, seconds) => ("withdraw", firsts, seconds),
        };
        write!(
            f,
            "{word} {} {}",
            ElementsText(firsts),
            ElementsText(seconds)
        )
    }
}

/// The letter of a kind, and the elements parted by commas.
#[derive(Clone, Copy)]
struct ElementsText<'a>(Elements<'a>);

impl<'a> fmt::Display for ElementsText<'a> {
    fn fmt<W: fmt::Write>(&self, f: &mut fmt::Formatter<W>) -> fmt::Result {
        match self.0 {
            Elements::Patterns(patterns) => {
                show_list(f, "p:", patterns, |f, pattern| write!(f, "{pattern:016x}"))
            }
            Elements::Counts(counts) => show_list(f, "c:", counts, |f, count| write!(f, "{count}")),
        }
    }
}

/// A mark, and the elements parted by commas, each as `show` shows it.
fn show_list<T, W: fmt::Write, F: Fn(&mut fmt::Formatter<W>, &T) -> fmt::Result>(
    f: &mut fmt::Formatter<W>,
    mark: &str,
    elements: &[T],
    show: F,
) -> fmt::Result
    requires call { F.IsAlwaysCallable show }
{
    let mut mark = mark;
    for element in elements {
        write!(f, "{mark}")?;
        show(f, element)?;
        mark = ",";
    }
    Ok(())
}

/// `ok`, or the three numbers of a refusal.
#[derive(Clone, Copy)]
pub struct AnswerText(pub Answer);

impl fmt::Display for AnswerText {
    fn fmt<W: fmt::Write>(&self, f: &mut fmt::Formatter<W>) -> fmt::Result {
        let Answer { code, place, side } = self.0;
        if code == 0 {
            return write!(f, "ok");
        }
        write!(f, "no {code} {place} {side}")
    }
}

/// A reading as one step of a text queue.
#[derive(Clone, Copy)]
pub struct ReadingText(pub Form);

impl fmt::Display for ReadingText {
    fn fmt<W: fmt::Write>(&self, f: &mut fmt::Formatter<W>) -> fmt::Result {
        let Form { direction, width } = self.0;
        write!(f, "read {direction} {width}")
    }
}
