//! Digits of a radix: how far a text of digits goes, the number that it writes, and the byte of a digit.
ghost use Rattle.std.specs.Prelude.{◌≡◌, ◌^◌, ◌<◌, ◌≤◌, true, false, take, MatchOption};
ghost use Rattle.sheets.specs.Digits.{worth, digit_byte, is_digit, run, number_of};

use numbers::kind::Kind;
use numbers::patterns::Patterns;

/// A pattern has a hexadecimal digit for every four of its bits.
pub(crate) const PATTERN_DIGITS: usize = Patterns::WIDTH as usize / 4;

/// The digits at the front of a text: how many, and the number that they write.
#[derive(Clone, Copy)]
pub struct Numeral {
    pub count: usize,
    pub number: u64,
}

/// What a byte is worth as a digit of the radix, if it is one.
// not by char::to_digit, which takes capital letters too
fn digit_worth(byte: u8, radix: u64) -> Option<u64>
    requires { radix ≤ 16 }
    ensures answer { MatchOption result (is_digit radix byte ≡ false) (λ digit. (is_digit radix byte ≡ true) × (digit ≡ worth byte)) }
{
    let worth = match byte {
        b'0'..=b'9' => byte - b'0',
        b'a'..=b'f' => byte - b'a' + 10,
        _ => return None,
    };
    let digit = u64::from(worth);
    (digit < radix).then_some(digit)
}

/// The byte that writes a digit below 16.
pub(crate) fn digit_byte(digit: u8) -> u8
    requires { digit < 16 }
    ensures answer { result ≡ digit_byte digit }
{
    if digit < 10 {
        b'0' + digit
    } else {
        b'a' + (digit - 10)
    }
}

/// The digits at the front of the text, at most `most`, so few that their number fits.
pub(crate) fn read_digits(text: &[u8], radix: u64, most: usize) -> Numeral
    requires { (radix ^ most ≤ 2 ^ 64) × ((0 < radix) × (radix ≤ 16)) }
    ensures count { result.count ≡ run radix most text.now }
    ensures value { result.number ≡ number_of radix (take result.count text.now) }
{
    let front = &text[..most.min(text.len())];
    let mut number: u64 = 0;
    for (count, byte) in front.iter().enumerate() {
        let Some(digit) = digit_worth(*byte, radix) else {
            return Numeral { count, number };
        };
        number = number * radix + digit;
    }
    Numeral {
        count: front.len(),
        number,
    }
}
