//! A text under way: bytes that are put one behind the other before they go into a caller's slice.
ghost use Rattle.std.specs.Prelude.{◌≤◌, length};

mod compose;

use arrayvec::ArrayVec;

/// At most 80 bytes.
#[derive(Drop)]
pub struct Text {
    bytes: ArrayVec<u8, 80>,
    ghost fits: { length bytes.items ≤ 80 },
}
