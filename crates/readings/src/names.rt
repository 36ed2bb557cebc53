//! The names and the numbers of directions and widths.
ghost use Rattle.std.specs.Prelude.{Some};
ghost use Rattle.readings.specs.Names.{direction_name, width_name, DirectionNamed, WidthNamed, DirectionNumbered, WidthNumbered, unknown_text};

use crate::forms::{Direction, Width};
use std::error::Error;
use std::fmt;
use std::str::FromStr;

/// What a word or a number fails to stand for.
#[derive(Clone, Copy, PartialEq, Eq, Debug)]
pub enum UnknownForm {
    NoDirection,
    NoWidth,
}

impl fmt::Display for UnknownForm {
    ghost output = { λ unknown. Some (unknown_text unknown) };

    fn fmt<W: fmt::Write>(&self, f: &mut fmt::Formatter<W>) -> fmt::Result {
        f.write_str(match self {
            UnknownForm::NoDirection => "no direction",
            UnknownForm::NoWidth => "no width",
        })
    }
}

impl Error for UnknownForm {}

impl fmt::Display for Direction {
    ghost output = { λ direction. Some (direction_name direction) };

    fn fmt<W: fmt::Write>(&self, f: &mut fmt::Formatter<W>) -> fmt::Result {
        f.write_str(match self {
            Direction::Nearest => "nearest",
            Direction::TowardZero => "zero",
            Direction::Up => "up",
            Direction::Down => "down",
        })
    }
}

impl fmt::Display for Width {
    ghost output = { λ width. Some (width_name width) };

    fn fmt<W: fmt::Write>(&self, f: &mut fmt::Formatter<W>) -> fmt::Result {
        f.write_str(match self {
            Width::Long => "long",
            Width::Short => "short",
        })
    }
}

impl FromStr for Direction {
    type Err = UnknownForm;

    ghost from_str_gives = { DirectionNamed };

    fn from_str(name: &str) -> Result<Direction, UnknownForm> {
        match name {
            "nearest" => Ok(Direction::Nearest),
            "zero" => Ok(Direction::TowardZero),
            "up" => Ok(Direction::Up),
            "down" => Ok(Direction::Down),
            _ => Err(UnknownForm::NoDirection),
        }
    }
}

impl FromStr for Width {
    type Err = UnknownForm;

    ghost from_str_gives = { WidthNamed };

    fn from_str(name: &str) -> Result<Width, UnknownForm> {
        match name {
            "long" => Ok(Width::Long),
            "short" => Ok(Width::Short),
            _ => Err(UnknownForm::NoWidth),
        }
    }
}

impl TryFrom<u32> for Direction {
    type Error = UnknownForm;

    ghost try_from_gives = { DirectionNumbered };

    fn try_from(number: u32) -> Result<Direction, UnknownForm> {
        match number {
            0 => Ok(Direction::Nearest),
            1 => Ok(Direction::TowardZero),
            2 => Ok(Direction::Up),
            3 => Ok(Direction::Down),
            _ => Err(UnknownForm::NoDirection),
        }
    }
}

impl TryFrom<u32> for Width {
    type Error = UnknownForm;

    ghost try_from_gives = { WidthNumbered };

    fn try_from(number: u32) -> Result<Width, UnknownForm> {
        match number {
            0 => Ok(Width::Long),
            1 => Ok(Width::Short),
            _ => Err(UnknownForm::NoWidth),
        }
    }
}
