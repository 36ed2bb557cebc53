//! Putting a text together, and handing it to the caller.
ghost use Rattle.std.specs.Prelude.{◌≡◌, [], ◌∷◌, length};
ghost use Rattle.sheets.specs.Elements.{pattern_text};
ghost use Rattle.sheets.specs.Outputs.{text_of, put, Fits, handed};

use crate::digits::{PATTERN_DIGITS, digit_byte};
use crate::text::Text;
use arrayvec::ArrayVec;
use itoa::{Buffer, Integer};
use numbers::refusal::{Reason, Refusal};

impl Text {
    pub(crate) fn new() -> Self
        ensures bytes { text_of result ≡ [] }
    {
        Text {
            bytes: ArrayVec::new(),
        }
    }

    /// Puts a byte behind the text, if it has room.
    pub(crate) fn put_byte(&mut self, byte: u8)
        ensures bytes { text_of self.new ≡ put (text_of self.old) (byte ∷ []) }
    {
        let _ = self.bytes.try_push(byte);
    }

    /// Puts some bytes behind the text, if it has room for all of them.
    pub(crate) fn put_bytes(&mut self, bytes: &[u8])
        ensures bytes { text_of self.new ≡ put (text_of self.old) bytes.now }
    {
        let _ = self.bytes.try_extend_from_slice(bytes);
    }

    /// Puts another text behind this one, if there is room for all of it.
    pub(crate) fn put_text(&mut self, text: &Text)
        ensures bytes { text_of self.new ≡ put (text_of self.old) (text_of text.now) }
    {
        self.put_bytes(text.bytes.as_slice());
    }

    /// Puts a pattern in hexadecimal, a digit for every four of its bits.
    pub(crate) fn put_pattern(&mut self, pattern: u64)
        ensures bytes { text_of self.new ≡ put (text_of self.old) (pattern_text pattern) }
    {
        let mut digits = [0; PATTERN_DIGITS];
        let mut left = pattern;
        // by place, the last first: what a loop over iter_mut().rev() wrote is not known to its invariant; and not by write!, whose promise leaves open whether all was written
        for at in (0..PATTERN_DIGITS).rev() {
            digits[at] = digit_byte((left % 16) as u8);
            left /= 16;
        }
        self.put_bytes(&digits);
    }

    /// Puts n in decimal, without leading zeros.
    pub(crate) fn put_decimal<I: Integer>(&mut self, n: I)
        ensures bytes { text_of self.new ≡ put (text_of self.old) (I.text n) }
    {
        self.put_bytes(Buffer::new().format(n).as_bytes());
    }

    /// Hands the text to the front of `out`, if it has room.
    pub(crate) fn copy_to(&self, out: &mut [u8]) -> Result<usize, Refusal>
        ensures answer { Fits (text_of self.now) (length out.old) result }
        ensures bytes { out.new ≡ handed (text_of self.now) out.old }
    {
        let n = self.bytes.len();
        if out.len() < n {
            return Err(Refusal::at(Reason::OutputShort, n as u64));
        }
        out[0..n].copy_from_slice(self.bytes.as_slice());
        Ok(n)
    }
}
