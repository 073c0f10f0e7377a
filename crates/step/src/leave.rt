// What a step leaves of the parts that it was given.
ghost use Rattle.std.specs.Prelude.{◌≡◌};
ghost use Rattle.step.specs.Steps.{at, goes_on, answered, as_was};

use crate::{Outcome, Parts, Place, Record, Stepped};

impl Record {
    // The record with another call place.
    pub(crate) fn at(self, place: Place) -> Record
        ensures { result ≡ at self place }
    {
        Record { place, ..self }
    }
}

impl Parts {
    // The parts as they were, with what the entry came to.
    pub fn as_was(self, outcome: Outcome) -> Stepped
        ensures { result ≡ as_was self.x self.own self.row outcome }
    {
        Stepped {
            x: self.x,
            own: self.own,
            row: self.row,
            outcome,
        }
    }

    // The step is taken, and the call goes on.
    pub(crate) fn goes_on(self) -> Stepped
        ensures { result ≡ goes_on self.x self.own self.row }
    {
        self.as_was(Outcome::GoesOn)
    }

    // The call is answered, which leaves its process idle.
    pub(crate) fn answered(self, outcome: Outcome) -> Stepped
        ensures { result ≡ answered self.x self.own self.row outcome }
    {
        let own = self.own.at(Place::Idle);
        Parts { own, ..self }.as_was(outcome)
    }
}
