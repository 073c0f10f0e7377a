// The schedule file by document 01: its block check, block 0, the later blocks, their entries, and the file as a whole.
// Every public function answers for every input, and its `ensures` gives the answer as a definition of specs/.
#![tactic(auto)]

pub mod block0;
mod bytes;
pub mod check;
pub mod file;
pub mod later;

pub use block0::read_first;
pub use check::check_of;
pub use file::{block_of, read_file};
pub use later::{entries_of, entry_at, fields_at, read_block, read_fields, used_entries};
use numbers::Refusal;

// What block 0 says: N, S and V.
#[derive(Clone, Copy)]
pub struct Start {
    pub n: u8,
    pub s: u64,
    pub v: u64,
}

// What refuses block 0, with the place of the first stray byte or 0.
#[derive(Clone, Copy)]
pub struct FirstRefusal {
    pub refusal: Refusal,
    pub place: usize,
}

// What the bytes of an entry say, field by field: its kind byte (1 to 4 in an accepted file), its process, its value.
#[derive(Clone, Copy)]
pub struct Fields {
    pub kind: u8,
    pub process: u8,
    pub value: u64,
}

// What an accepted file says: its start, and how many entries it has.
#[derive(Clone, Copy)]
pub struct Accepted {
    pub start: Start,
    pub entries: usize,
}

// What refuses a file, with the block where it was found and the place of the first stray byte or 0, as documents 01 and 02 have them: with
// an Option for the place the promise would leave two answers, none and 0.
#[derive(Clone, Copy)]
pub struct FileRefusal {
    pub refusal: Refusal,
    pub block: usize,
    pub place: usize,
}
