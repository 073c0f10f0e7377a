// One step of one process over the few parts that it can reach: the word X, the process's own record and one row of
// registers. All of it goes in by value and comes back by value, so a caller writes back only what the step hands it.
#![tactic(auto)]

pub mod answer;
pub mod call;
mod leave;
mod load;
pub mod number;
mod store;

use numbers::{Process, Sequence};

// What X holds, and what a process keeps of it: whose store it was, and which of its stores.
#[derive(Clone, Copy, PartialEq, Eq)]
pub struct Tag {
    pub process: Process,
    pub number: Sequence,
}

// The registers of one process that every process can read.
#[derive(Clone, Copy)]
pub struct Row {
    pub slots: [u64; 2],
    pub old_value: u64,
    pub old_number: i64,
}

// Where a process stands in its call: idle, or before the step of that number, with what it still carries.
#[derive(Clone, Copy)]
pub enum Place {
    Idle,
    Load1,
    Load2,
    Load3(u64),
    Load5,
    Store7(u64),
    Store8,
    Store9,
    Store10,
    Check14,
}

// What only its own process reads and writes.
#[derive(Clone, Copy)]
pub struct Record {
    pub kept: Tag,
    pub next: Sequence,
    pub place: Place,
}

// What an entry came to. Value is a load answered, by step 3 or by step 5; the last five turn the entry away.
#[derive(Clone, Copy)]
pub enum Outcome {
    Taken,
    GoesOn,
    Value(u64),
    Done,
    NotDone,
    Yes,
    No,
    NoProcess,
    CallOpen,
    UsedUp,
    NoCall,
    Unsound,
}

// What is asked of the machine: its word holds numbers of 64 bits.
pub type Request = requests::Request<u64>;

pub type Kind = requests::Kind<u64>;

pub type Entry = requests::Entry<u64>;

// What a request leaves of a process's record.
#[derive(Clone, Copy)]
pub struct Requested {
    pub own: Record,
    pub outcome: Outcome,
}

// The parts that a step of a process is given: X, the process's own record, and the row of one process.
#[derive(Clone, Copy)]
pub struct Parts {
    pub x: Tag,
    pub own: Record,
    pub row: Row,
}

// What a step leaves of the parts that it was given.
#[derive(Clone, Copy)]
pub struct Stepped {
    pub x: Tag,
    pub own: Record,
    pub row: Row,
    pub outcome: Outcome,
}

// An outcome as the log writes it: its number, and its value if it has one.
pub type Told = requests::Told<u64>;
