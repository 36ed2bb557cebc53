//! Lists of patterns and counts, and bytes with escapes, as a queue writes them.
ghost use Rattle.std.specs.Prelude.{◌<◌, length, IfOk};

use readings::names::UnknownForm;
use std::alloc::{AllocError, AllocFailed, Global};
use std::num::ParseIntError;

/// Why no step was read.
#[derive(Clone, Copy)]
pub enum ReadError {
    /// The text writes no step.
    NoStep,
    Memory(AllocError),
}

impl From<AllocError> for ReadError {
    fn from(error: AllocError) -> ReadError {
        ReadError::Memory(error)
    }
}

impl<T: Drop> From<AllocFailed<T>> for ReadError {
    fn from(failed: AllocFailed<T>) -> ReadError {
        ReadError::Memory(AllocError::from(failed))
    }
}

impl From<ParseIntError> for ReadError {
    fn from(_error: ParseIntError) -> ReadError {
        ReadError::NoStep
    }
}

impl From<UnknownForm> for ReadError {
    fn from(_unknown: UnknownForm) -> ReadError {
        ReadError::NoStep
    }
}

/// Elements parted by commas, each as `read` reads it.
pub(crate) fn read_list<T: Drop, F: Fn(&str) -> Result<T, ReadError>>(
    heap: Global,
    list: &str,
    read: F,
) -> Result<Vec<T>, ReadError>
    requires call { F.IsAlwaysCallable read }
{
    if list.is_empty() {
        return Ok(Vec::new(heap));
    }
    // a closure: whether `read` itself may be called at each piece is not proved
    list.split(',').map(|text| read(text)).try_collect(heap)
}

/// A count in decimal.
pub(crate) fn read_count(text: &str) -> Result<i32, ReadError> {
    Ok(text.parse::<i32>()?)
}

/// The pattern of 16 digits.
pub(crate) fn read_pattern(text: &str) -> Result<u64, ReadError> {
    if text.len() != 16 {
        return Err(ReadError::NoStep);
    }
    let mut pattern = 0;
    for byte in text.bytes() {
        pattern = pattern << 4 | u64::from(read_digit(byte)?);
    }
    Ok(pattern)
}

/// The value of a hexadecimal digit, written small.
// not by char::to_digit, which takes capital letters too
fn read_digit(byte: u8) -> Result<u8, ReadError> {
    match byte {
        b'0'..=b'9' => Ok(byte - b'0'),
        b'a'..=b'f' => Ok(byte - b'a' + 10),
        _ => Err(ReadError::NoStep),
    }
}

/// The bytes of a text in which `\t`, `\n`, `\\` and `\x` with two digits each stand for one byte.
pub(crate) fn read_bytes(heap: Global, text: &[u8]) -> Result<Vec<u8>, ReadError> {
    let mut bytes = Vec::new(heap);
    let mut rest = text;
    while !rest.is_empty() {
        let (byte, behind) = split_byte(rest)?;
        bytes.push(byte)?;
        rest = behind;
    }
    Ok(bytes)
}

/// The byte that a text begins with, and the text behind what writes it.
fn split_byte(text: &[u8]) -> Result<(u8, &[u8]), ReadError>
    ensures after { IfOk result (λ read. length read.1.now < length text.now) }
{
    match text {
        [b'\\', b't', rest @ ..] => Ok((b'\t', rest)),
        [b'\\', b'n', rest @ ..] => Ok((b'\n', rest)),
        [b'\\', b'\\', rest @ ..] => Ok((b'\\', rest)),
        [b'\\', b'x', high, low, rest @ ..] => {
            Ok((read_digit(*high)? << 4 | read_digit(*low)?, rest))
        }
        [b'\\', ..] | [] => Err(ReadError::NoStep),
        [plain, rest @ ..] => Ok((*plain, rest)),
    }
}
