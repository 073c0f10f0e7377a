// The text that is printed of a log, written into a part that the caller lends.
#![tactic(auto)]

pub mod field;
pub mod line;
pub mod page;
mod put;

// A piece of a line: bytes as they are, a number in decimal, or such a number and the byte that ends it. (A line of fields alone is written
// without a copy of unknown length at each space.)
#[derive(Clone, Copy)]
pub(crate) enum Piece {
    Word(&'static [u8]),
    Number(u64),
    Field(u64, u8),
}

// How many bytes of whole lines were printed into a lent part, and the place of the first entry whose line was not.
#[derive(Clone, Copy)]
pub struct Filled {
    pub bytes: usize,
    pub place: u32,
}
