// What is printed of an outcome.
ghost use Rattle.std.specs.Prelude.{◌≡◌};
ghost use Rattle.reused.specs.Steps.{says, told_of};

use crate::{Outcome, Stored, Told};
use numbers::Process;

impl Stored {
    // What stands where no load is answered.
    pub(crate) const NONE: Stored = Stored {
        process: Process(0),
        bit: false,
    };
}

fn says(number: u8) -> Told
    ensures { result ≡ says number }
{
    Told {
        number,
        value: Stored::NONE,
    }
}

impl From<Outcome> for Told {
    ghost from_gives = { λ outcome told. told ≡ told_of outcome };

    fn from(outcome: Outcome) -> Told
        ensures { result ≡ told_of outcome }
    {
        match outcome {
            Outcome::Taken => says(0),
            Outcome::GoesOn => says(1),
            Outcome::Value(value) => Told { number: 2, value },
            Outcome::Done => says(3),
            Outcome::NotDone => says(4),
            Outcome::Yes => says(5),
            Outcome::No => says(6),
            Outcome::NoProcess => says(11),
            Outcome::CallOpen => says(12),
            Outcome::NoCall => says(14),
            Outcome::Unsound => says(15),
        }
    }
}
