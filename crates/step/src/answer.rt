// What the log says of an outcome.
ghost use Rattle.std.specs.Prelude.{◌≡◌};
ghost use Rattle.step.specs.Steps.{told_of};

use crate::{Outcome, Told};

impl From<Outcome> for Told {
    ghost from_gives = { λ outcome told. told ≡ told_of outcome };

    fn from(outcome: Outcome) -> Told
        ensures { result ≡ told_of outcome }
    {
        let (number, value) = match outcome {
            Outcome::Taken => (0, 0),
            Outcome::GoesOn => (1, 0),
            Outcome::Value(v) => (2, v),
            Outcome::Done => (3, 0),
            Outcome::NotDone => (4, 0),
            Outcome::Yes => (5, 0),
            Outcome::No => (6, 0),
            Outcome::NoProcess => (11, 0),
            Outcome::CallOpen => (12, 0),
            Outcome::UsedUp => (13, 0),
            Outcome::NoCall => (14, 0),
            Outcome::Unsound => (15, 0),
        };
        Told { number, value }
    }
}
