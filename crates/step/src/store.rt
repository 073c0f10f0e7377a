// The steps of a store.
ghost use Rattle.std.specs.Prelude.{◌≡◌, ◌≤◌};
ghost use Rattle.step.specs.Steps.{step7, step8, step9, step10};

use crate::{Outcome, Parts, Place, Record, Row, Stepped, Tag};
use numbers::{Process, Sequence};

impl Parts {
    pub(crate) fn step_7(self, v: u64) -> Stepped
        ensures { result ≡ step7 self.x self.own self.row v }
    {
        let row = self.row.with_slot(self.own.next, v);
        let own = self.own.at(Place::Store8);
        Parts { own, row, ..self }.goes_on()
    }

    pub(crate) fn step_8(self, p: Process) -> Stepped
        requires { self.own.next.0 ≤ 4294967296 }
        ensures { result ≡ step8 p self.x self.own self.row }
    {
        if self.x == self.own.kept {
            let x = Tag {
                process: p,
                number: self.own.next,
            };
            let own = Record {
                next: Sequence(self.own.next.0 + 1),
                place: Place::Store9,
                ..self.own
            };
            Parts { x, own, ..self }.goes_on()
        } else {
            self.answered(Outcome::NotDone)
        }
    }

    pub(crate) fn step_9(self) -> Stepped
        ensures { result ≡ step9 self.x self.own self.row }
    {
        let row = Row {
            old_value: self.row.slot(self.own.next),
            ..self.row
        };
        let own = self.own.at(Place::Store10);
        Parts { own, row, ..self }.goes_on()
    }

    pub(crate) fn step_10(self) -> Stepped
        requires { self.own.next.0 ≤ 4294967296 }
        ensures { result ≡ step10 self.x self.own self.row }
    {
        let row = Row {
            old_number: self.own.next.0 as i64 - 2,
            ..self.row
        };
        Parts { row, ..self }.answered(Outcome::Done)
    }
}
