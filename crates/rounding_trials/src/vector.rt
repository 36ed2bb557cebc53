//! A rounding vector: a line of words that names a form, and pairs of patterns whose products make the value.
use anyhow::{Context, anyhow};
use condensers::condenser::Condenser;
use numbers::factor::Factor;
use numbers::kind::Kind;
use numbers::patterns::Patterns;
use numbers::refusal::Refusal;
use readings::forms::Form;
use readings::reading::read_total;

/// The factor of a pattern in hexadecimal digits.
fn factor(word: &str) -> anyhow::Result<Factor> {
    let pattern = u64::from_str_radix(word, 16)?;
    Patterns::factor(pattern).map_err(|_| anyhow!("a pattern is refused"))
}

fn put_product<C: Condenser>(condenser: &mut C, first: &str, second: &str) -> anyhow::Result<()> {
    let product = factor(first)?.times(factor(second)?);
    condenser
        .put(product)
        .map_err(|_| anyhow!("a product is refused"))
}

/// The reading of the vector's value, after its products are put into an empty condenser.
pub(crate) fn reading<C: Condenser>(
    condenser: &mut C,
    line: &str,
) -> anyhow::Result<Result<u64, Refusal>> {
    let mut words = line.split_whitespace();
    let direction = words.next().context("no form")?;
    let width = words.next().context("no form")?;
    let form = Form {
        direction: direction.parse()?,
        width: width.parse()?,
    };
    while let Some(first) = words.next() {
        let second = words.next().context("a pattern without its partner")?;
        put_product(condenser, first, second)?;
    }
    Ok(read_total(condenser, form))
}
