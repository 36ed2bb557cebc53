//! The line splitter: it is fed a sheet in chunks, cut anywhere, and holds one line at a time.
ghost use Rattle.std.specs.Prelude.{◌≤◌, length};

mod feed;

use arrayvec::ArrayVec;

/// A line under way or at its end: its first 40 bytes, its number, and whether its line feed has come.
// a flag and no type for each state: one splitter serves a whole sheet
#[derive(Drop)]
pub struct Splitter {
    bytes: ArrayVec<u8, 40>,
    number: u64,
    complete: bool,
    ghost fits: { length bytes.items ≤ 40 },
}
