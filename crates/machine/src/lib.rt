// The whole machine as one value: start, the soundness test, and a direct call of one of four kinds. A caller may hand in any
// state whatever; what is unsound is turned away before anything else is looked at.
#![tactic(auto)]

use numbers::Sequence;
use step::{Outcome, Record, Row, Tag};

pub mod entry;
pub mod opening;
pub mod parts;
pub mod sound;

// n processes, s the last usable sequence number; a row of registers and a record for each of the 16 process numbers.
#[derive(Clone, Copy)]
pub struct State {
    pub n: usize,
    pub s: Sequence,
    pub x: Tag,
    pub rows: [Row; 16],
    pub records: [Record; 16],
}

pub type Answer = requests::Answer<State, Outcome>;

// What a start gives, and whether it was taken or turned away because N or S is out of range.
pub type Started = requests::Started<State>;
