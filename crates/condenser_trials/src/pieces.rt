//! Sets of pieces by index, and orders in which to take them.
use numbers::piece::Piece;
use std::fmt;

/// Which pieces.
#[derive(Clone, Copy)]
pub(crate) enum Set {
    /// Any significand, exponent and sign.
    Random,
    /// Positive and of like size.
    Conditioned,
    /// Each with its opposite.
    Cancelling,
    /// 2^-1072, 2^-1071 and so on to 2^916, then 2^-1072 once more.
    Powers,
    /// The smallest and the largest piece with both signs.
    Extremes,
}

/// In which order.
#[derive(Clone, Copy)]
pub(crate) enum Order {
    Forward,
    Backward,
    /// Every 789th, round and round.
    Strided,
}

impl fmt::Display for Set {
    fn fmt<W: fmt::Write>(&self, f: &mut fmt::Formatter<W>) -> fmt::Result {
        match *self {
            Set::Random => write!(f, "random"),
            Set::Conditioned => write!(f, "well-conditioned"),
            Set::Cancelling => write!(f, "cancelling"),
            Set::Powers => write!(f, "powers of two"),
            Set::Extremes => write!(f, "extremes"),
        }
    }
}

impl fmt::Display for Order {
    fn fmt<W: fmt::Write>(&self, f: &mut fmt::Formatter<W>) -> fmt::Result {
        match *self {
            Order::Forward => write!(f, "forward"),
            Order::Backward => write!(f, "backward"),
            Order::Strided => write!(f, "strided"),
        }
    }
}

impl Order {
    pub(crate) const ALL: [Order; 3] = [Order::Forward, Order::Backward, Order::Strided];

    /// The index that comes at turn `i` of `count`.
    pub(crate) fn index(self, i: u32, count: u32) -> u32 {
        match self {
            Order::Forward => i,
            Order::Backward => (count.wrapping_sub(1)).wrapping_sub(i),
            Order::Strided => {
                if count == 0 {
                    0
                } else {
                    ((i as u64 * 789) % count as u64) as u32
                }
            }
        }
    }
}

/// Spreads the bits of a number.
fn mix(x: u64) -> u64 {
    let a = x.wrapping_add(0x9e37_79b9_7f4a_7c15);
    let b = (a ^ (a >> 30)).wrapping_mul(0xbf58_476d_1ce4_e5b9);
    let c = (b ^ (b >> 27)).wrapping_mul(0x94d0_49bb_1331_11eb);
    c ^ (c >> 31)
}

fn random(i: u32) -> Piece {
    let bits = mix(i as u64);
    Piece {
        negative: bits >= 0x8000_0000_0000_0000,
        significand: bits % 0x10_0000_0000_0000 + 1,
        exponent: (mix(bits) % 1989) as i32 - 1072,
    }
}

fn conditioned(i: u32) -> Piece {
    let bits = mix(i as u64);
    Piece {
        negative: false,
        significand: bits % 0x8_0000_0000_0000 + 0x8_0000_0000_0000,
        exponent: (mix(bits) % 8) as i32 - 56,
    }
}

fn power(i: u32) -> Piece {
    Piece {
        negative: false,
        significand: 1,
        exponent: (i % 1989) as i32 - 1072,
    }
}

fn extreme(i: u32) -> Piece {
    let large = i % 2 == 1;
    Piece {
        negative: i % 8 >= 4,
        significand: if large { 0x10_0000_0000_0000 } else { 1 },
        exponent: if large { 916 } else { -1072 },
    }
}

/// The piece of a set at an index.
pub(crate) fn piece_at(set: Set, i: u32) -> Piece {
    match set {
        Set::Random => random(i),
        Set::Conditioned => conditioned(i),
        Set::Cancelling => {
            if i % 2 == 0 {
                random(i / 2)
            } else {
                random(i / 2).opposite()
            }
        }
        Set::Powers => power(i),
        Set::Extremes => extreme(i),
    }
}
