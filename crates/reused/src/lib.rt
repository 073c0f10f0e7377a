// The machine with reused numbers: one word for up to 16 processes that holds a bit and says who stored it. Its tags run round a circle
// of M numbers. The whole machine is one value: start, the soundness test, and a direct call of one of four kinds; and the same entry
// over the few parts that it can reach, for a loop that keeps the state itself. A caller may hand in anything whatever; what is unsound
// is turned away before anything else is looked at.
#![tactic(auto)]

mod choice;
mod circle;
pub mod direct;
pub mod opening;
pub mod play;
pub mod sound;
mod step;
pub mod tell;
mod turn;

use numbers::Process;

// A number of the circle, from 0 and below M: a tag, or the start of an interval of tags. Never taken for a process.
#[derive(Clone, Copy, PartialEq, Eq)]
pub struct Point(pub u64);

// What X holds, and what a process keeps of it: the tag, whose store it was, and the bit.
#[derive(Clone, Copy, PartialEq, Eq)]
pub struct Triple {
    pub tag: Point,
    pub process: Process,
    pub bit: bool,
}

// What a process announces in its place of A: whose store it has read, and by which tag.
#[derive(Clone, Copy)]
pub struct Announced {
    pub process: Process,
    pub tag: Point,
}

// Where a process stands in its call: idle, or before the step of that number of a load, a store or a check.
#[derive(Clone, Copy)]
pub enum Place {
    Idle,
    Load1,
    Load2,
    Load3,
    Store1(bool),
    Store2,
    Check1,
}

// What only one process writes: its place of A, which every process can read and which names nobody or what it announces, and what is
// private to it: old and check, which it may have kept of X or not, its next tag, its next start, its search place, and where it stands in
// its call.
#[derive(Clone, Copy)]
pub struct Own {
    pub named: Option<Announced>,
    pub old: Option<Triple>,
    pub check: Option<Triple>,
    pub tag: Point,
    pub start: Point,
    pub search: Process,
    pub place: Place,
}

// n processes, m numbers round the circle; a row for each of the 16 process numbers.
#[derive(Clone, Copy)]
pub struct State {
    pub n: usize,
    pub m: u64,
    pub x: Triple,
    pub rows: [Own; 16],
}

// The word's value: whose store it was, and the bit.
#[derive(Clone, Copy)]
pub struct Stored {
    pub process: Process,
    pub bit: bool,
}

// What an entry came to. Value is a load answered; the last four turn the entry away. It is not the other machine's type: no store is ever used
// up here, so there is no 13.
#[derive(Clone, Copy)]
pub enum Outcome {
    Taken,
    GoesOn,
    Value(Stored),
    Done,
    NotDone,
    Yes,
    No,
    NoProcess,
    CallOpen,
    NoCall,
    Unsound,
}

// What is asked of the machine: its word holds a bit.
pub type Request = requests::Request<bool>;

pub type Kind = requests::Kind<bool>;

pub type Entry = requests::Entry<bool>;

// What an entry of a process is given: X, the process's row, and the place of A at its search place.
#[derive(Clone, Copy)]
pub struct Parts {
    pub x: Triple,
    pub own: Own,
    pub looked: Option<Announced>,
}

// What a request leaves of a process's row.
#[derive(Clone, Copy)]
pub struct Requested {
    pub own: Own,
    pub outcome: Outcome,
}

// What an entry leaves of X and of its process's row.
#[derive(Clone, Copy)]
pub struct Stepped {
    pub x: Triple,
    pub own: Own,
    pub outcome: Outcome,
}

pub type Answer = requests::Answer<State, Outcome>;

// A start's state, and whether it was taken or turned away because N or M is out of range.
pub type Started = requests::Started<State>;

// An outcome as it is printed: its number, and the load's answer if it has one.
pub type Told = requests::Told<Stored>;
