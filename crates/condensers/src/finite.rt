//! A finite binary64 number: one that is no infinity and no NaN.
ghost use Rattle.std.specs.Prelude.{◌<◌, to_bits};
ghost use Rattle.std.specs.Float.{binary64};
ghost use Rattle.numbers.specs.Patterns.{field_of};

/// A finite binary64 number.
#[derive(Clone, Copy)]
pub(crate) struct Finite {
    pub(crate) number: f64,
    ghost finite: { field_of (to_bits binary64 number) < 2047 },
}
