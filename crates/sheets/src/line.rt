//! A sheet line, read: its word and its two fields, each a part of the caller's line.

#[derive(Clone, Copy, PartialEq, Eq, Debug)]
pub enum Word {
    Add,
    Sub,
}

/// A field of a line: the text of its element behind the letter, the place of the letter in the line, and the element.
// each variant has all of a field: the element's type is that of its kind
#[derive(Clone, Copy, Debug)]
pub enum Field<'a> {
    Pattern {
        digits: &'a [u8],
        place: u64,
        element: u64,
    },
    Count {
        digits: &'a [u8],
        place: u64,
        element: i32,
    },
}

#[derive(Clone, Copy, Debug)]
pub struct Line<'a> {
    pub word: Word,
    pub first: Field<'a>,
    pub second: Field<'a>,
}
