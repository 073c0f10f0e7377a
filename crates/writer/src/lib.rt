// Schedule files from texts (document 02, P1). Every public function answers for every input, and its
// `ensures` gives the answer, and every byte of the lent output, as definitions of specs/.
#![tactic(auto)]

use numbers::Refusal;

mod block;
pub mod decimal;
pub mod file;
pub mod find;
pub mod form;
pub mod scan;

pub use file::write_text;

// What turned a text away, and the line that 25 names; line 0 with every other refusal, as document 02 has it (with an Option the promise
// would leave two answers, none and 0).
#[derive(Clone, Copy, PartialEq, Eq)]
pub struct TextRefusal {
    pub refusal: Refusal,
    pub line: usize,
}

impl From<Refusal> for TextRefusal {
    ghost use Rattle.std.specs.Prelude.{◌≡◌};

    ghost from_gives = { λ refusal e. e ≡ record { refusal = refusal; line = 0 } };

    fn from(refusal: Refusal) -> TextRefusal
        ensures { result ≡ record { refusal = refusal; line = 0 } }
    {
        TextRefusal { refusal, line: 0 }
    }
}

// What keeps bytes from being a number below 2^64.
#[derive(Clone, Copy, PartialEq, Eq)]
pub enum NumeralError {
    NoNumeral,
    TooLarge,
}

// What line one says; an N or an S of 2^64 or more is given as 0.
#[derive(Clone, Copy)]
pub struct Opening {
    pub n: u64,
    pub s: u64,
    pub v: u64,
}
