// Texts of the machine with reused numbers (document 02, P9, in the form of P1): what a text asks for, and the log of its run. Every public
// function answers for every input, and its `ensures` gives the answer, and every byte of what is lent, as definitions of specs/.
#![tactic(auto)]

mod entry;
mod form;
mod play;
mod scan;
pub mod whole;

pub use whole::play_text;

// What line one says, N and M; one of 2^64 or more is given as 0.
#[derive(Clone, Copy)]
pub struct Sizes {
    pub n: usize,
    pub m: u64,
}
