// The steps of a load, and the one step of a check.
ghost use Rattle.std.specs.Prelude.{◌≡◌};
ghost use Rattle.step.specs.Steps.{step1, step2, step3, step5, step14};

use crate::{Outcome, Parts, Place, Record, Stepped};

impl Parts {
    pub(crate) fn step_1(self) -> Stepped
        ensures { result ≡ step1 self.x self.own self.row }
    {
        let own = Record {
            kept: self.x,
            place: Place::Load2,
            ..self.own
        };
        Parts { own, ..self }.goes_on()
    }

    pub(crate) fn step_2(self) -> Stepped
        ensures { result ≡ step2 self.x self.own self.row }
    {
        let v = self.row.slot(self.own.kept.number);
        let own = self.own.at(Place::Load3(v));
        Parts { own, ..self }.goes_on()
    }

    pub(crate) fn step_3(self, v: u64) -> Stepped
        ensures { result ≡ step3 self.x self.own self.row v }
    {
        if self.row.old_is_near(self.own.kept.number) {
            self.answered(Outcome::Value(v))
        } else {
            let own = self.own.at(Place::Load5);
            Parts { own, ..self }.goes_on()
        }
    }

    pub(crate) fn step_5(self) -> Stepped
        ensures { result ≡ step5 self.x self.own self.row }
    {
        self.answered(Outcome::Value(self.row.old_value))
    }

    pub(crate) fn step_14(self) -> Stepped
        ensures { result ≡ step14 self.x self.own self.row }
    {
        self.answered(if self.x == self.own.kept {
            Outcome::Yes
        } else {
            Outcome::No
        })
    }
}
