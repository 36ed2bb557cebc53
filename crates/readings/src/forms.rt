//! How a total is read: the direction of the rounding and the width of the pattern.
ghost use Rattle.std.specs.Prelude.{◌≡◌, ◌^◌, ◌≤◌};
ghost use Rattle.std.specs.Float.Ieee.{hid, prec, top};
ghost use Rattle.readings.specs.Formats.{format_of, lowest};

/// The leading digit of a binary64 number that has one.
pub(crate) const LONG_LEADING_DIGIT: u64 = 0x10_0000_0000_0000;

/// The sign bit of a binary64 pattern.
pub(crate) const LONG_SIGN_BIT: u64 = 0x8000_0000_0000_0000;

/// Where a total goes that is no number of the format.
#[derive(Clone, Copy, PartialEq, Eq, Debug)]
pub enum Direction {
    /// To the nearest number; a tie goes away from zero.
    Nearest,
    TowardZero,
    Up,
    Down,
}

/// The format of a reading.
#[derive(Clone, Copy, PartialEq, Eq, Debug)]
pub enum Width {
    /// IEEE 754 binary64.
    Long,
    /// IEEE 754 binary32, in the low half of the pattern.
    Short,
}

/// What a reading is asked for.
#[derive(Clone, Copy, PartialEq, Eq, Debug)]
pub struct Form {
    pub direction: Direction,
    pub width: Width,
}

// four tables of two rows: one of four columns would be no plainer
impl Width {
    /// How many binary digits a number has, the leading one counted.
    pub fn precision(self) -> u32
        ensures answer { result ≡ prec (format_of self) }
    {
        match self {
            Width::Long => 53,
            Width::Short => 24,
        }
    }

    /// The power of two of the smallest positive number, in units of 2^-1074.
    pub fn lowest(self) -> u32
        ensures answer { result ≡ lowest (format_of self) }
    {
        match self {
            Width::Long => 0,
            Width::Short => 925,
        }
    }

    /// The weight of a number's leading digit, and of the exponent's field in a pattern.
    pub fn leading_digit(self) -> u64
        ensures answer { result ≡ hid (format_of self) }
        ensures limits { result ≤ 2 ^ 52 }
    {
        match self {
            Width::Long => LONG_LEADING_DIGIT,
            Width::Short => 0x80_0000,
        }
    }

    /// The sign bit of a pattern.
    pub fn sign_bit(self) -> u64
        ensures answer { result ≡ top (format_of self) }
    {
        match self {
            Width::Long => LONG_SIGN_BIT,
            Width::Short => 0x8000_0000,
        }
    }
}
