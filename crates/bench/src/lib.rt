// The bench: a schedule file and a lent log in, a number and every byte of the log out.
#![tactic(auto)]

use machine::State;
use numbers::Version;
use schedule::FileRefusal;

mod entries;
pub mod note;
pub mod whole;

// What a run returns: whether the file was turned away, and the state after the last entry (zeros where it was).
#[derive(Clone, Copy)]
pub struct Ran {
    pub refused: Result<(), FileRefusal>,
    pub state: State,
}

// A state and how often X has changed on the way to it.
#[derive(Clone, Copy)]
pub struct Played {
    pub state: State,
    pub changes: Version,
}
