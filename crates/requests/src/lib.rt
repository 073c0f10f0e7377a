// What is asked of a machine and what comes of it, over whatever values are stored: a call, or the next step of one; a state that is
// started, or left by an entry.
#![tactic(auto)]

use numbers::{Process, Refusal};

// What a request asks for.
#[derive(Clone, Copy, PartialEq, Eq)]
pub enum Request<V> {
    Load,
    Store(V),
    Check,
}

// What an entry asks of its process: a call, or its next step.
#[derive(Clone, Copy, PartialEq, Eq)]
pub enum Kind<V> {
    Ask(Request<V>),
    Step,
}

// One entry, from the file to the machine.
#[derive(Clone, Copy, PartialEq, Eq)]
pub struct Entry<V> {
    pub process: Process,
    pub kind: Kind<V>,
}

// What a start gives: a state (of zeros where it is turned away, as document 01 promises), and whether it was taken, or else what turned it
// away.
#[derive(Clone, Copy)]
pub struct Started<S> {
    pub state: S,
    pub start: Result<(), Refusal>,
}

// What an entry leaves: the state after it, and what it came to.
#[derive(Clone, Copy)]
pub struct Answer<S, O> {
    pub state: S,
    pub outcome: O,
}

// An outcome as the log writes it: its number, and the answer of a load, or what stands where there is none.
#[derive(Clone, Copy)]
pub struct Told<V> {
    pub number: u8,
    pub value: V,
}
