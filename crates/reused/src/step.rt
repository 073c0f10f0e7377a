// The steps of a load, a store and a check, and a request: what each leaves of X and of its process's row.
ghost use Rattle.std.specs.Prelude.{◌≡◌};
ghost use Rattle.reused.specs.Steps.{all_equal, at, answered, as_was, load1, announced_of, load2, stored_of, load3, store1, store2, check1, step_of, own_steps, idle, first_place, request_of};

use crate::turn::Turn;
use crate::{Announced, Outcome, Own, Parts, Place, Request, Requested, Stepped, Stored, Triple};
use numbers::Process;

impl Place {
    // How many own steps the call will have taken with the next one.
    pub(crate) fn own_steps(self) -> u8
        ensures { result ≡ own_steps self }
    {
        match self {
            Place::Idle => 0,
            Place::Load1 | Place::Store1(_) | Place::Check1 => 1,
            Place::Load2 | Place::Store2 => 2,
            Place::Load3 => 3,
        }
    }

    // The first place of a call.
    fn first(request: Request) -> Place
        ensures { result ≡ first_place request }
    {
        match request {
            Request::Load => Place::Load1,
            Request::Store(bit) => Place::Store1(bit),
            Request::Check => Place::Check1,
        }
    }

    fn is_idle(self) -> bool
        ensures { result ≡ idle self }
    {
        matches!(self, Place::Idle)
    }
}

impl Own {
    // The row with another call place.
    fn at(self, place: Place) -> Own
        ensures { result ≡ at self place }
    {
        Own { place, ..self }
    }

    // What old announces,
    fn announced(self) -> Option<Announced>
        ensures { result ≡ announced_of self.old }
    {
        self.old.map(|w| Announced {
            process: w.process,
            tag: w.tag,
        })
    }

    // and what it answers.
    fn stored(self) -> Stored
        ensures { result ≡ stored_of self.old }
    {
        self.old.map_or(
            Stored::NONE,
            |w| Stored {
                process: w.process,
                bit: w.bit,
            },
        )
    }

    // The request of a call by the process whose row this is.
    pub(crate) fn request(self, request: Request) -> Requested
        ensures { result ≡ request_of self request }
    {
        if self.place.is_idle() {
            Requested {
                own: self.at(Place::first(request)),
                outcome: Outcome::Taken,
            }
        } else {
            Requested {
                own: self,
                outcome: Outcome::CallOpen,
            }
        }
    }
}

impl Parts {
    // Whether X, old and check are equal.
    fn all_equal(self) -> bool
        ensures { result ≡ all_equal self.x self.own }
    {
        self.own.old == self.own.check && self.own.old == Some(self.x)
    }

    pub(crate) fn as_was(self, outcome: Outcome) -> Stepped
        ensures { result ≡ as_was self.x self.own outcome }
    {
        Stepped {
            x: self.x,
            own: self.own,
            outcome,
        }
    }

    fn answer(self, outcome: Outcome) -> Stepped
        ensures { result ≡ answered self.x self.own outcome }
    {
        let own = self.own.at(Place::Idle);
        Parts { own, ..self }.as_was(outcome)
    }

    // Load: read X as old,
    fn load1(self) -> Stepped
        ensures { result ≡ load1 self.x self.own }
    {
        let own = Own {
            old: Some(self.x),
            place: Place::Load2,
            ..self.own
        };
        Parts { own, ..self }.as_was(Outcome::GoesOn)
    }

    // announce old's process and tag,
    fn load2(self) -> Stepped
        ensures { result ≡ load2 self.x self.own }
    {
        let own = Own {
            named: self.own.announced(),
            place: Place::Load3,
            ..self.own
        };
        Parts { own, ..self }.as_was(Outcome::GoesOn)
    }

    // read X as check, and answer.
    fn load3(self) -> Stepped
        ensures { result ≡ load3 self.x self.own }
    {
        let own = Own {
            check: Some(self.x),
            ..self.own
        };
        Parts { own, ..self }.answer(Outcome::Value(self.own.stored()))
    }

    // Store: X becomes [tag, p, bit] if X, old and check are equal,
    fn store1(self, p: Process, bit: bool) -> Stepped
        ensures { result ≡ store1 p self.x self.own bit }
    {
        if self.all_equal() {
            let x = Triple {
                tag: self.own.tag,
                process: p,
                bit,
            };
            let own = self.own.at(Place::Store2);
            Parts { x, own, ..self }.as_was(Outcome::GoesOn)
        } else {
            self.answer(Outcome::NotDone)
        }
    }

    fn check1(self) -> Stepped
        ensures { result ≡ check1 self.x self.own }
    {
        self.answer(if self.all_equal() {
            Outcome::Yes
        } else {
            Outcome::No
        })
    }
}

impl Turn {
    // and then the next tag is chosen.
    fn store2(self) -> Stepped
        ensures { result ≡ store2 self.circle.n self.circle.m self.process self.parts.x self.parts.own self.parts.looked }
    {
        let own = self.choose();
        Parts { own, ..self.parts }.answer(Outcome::Done)
    }

    // The next step of the process.
    pub(crate) fn step(self) -> Stepped
        ensures { result ≡ step_of self.circle.n self.circle.m self.process self.parts.x self.parts.own self.parts.looked }
    {
        match self.parts.own.place {
            Place::Idle => self.parts.as_was(Outcome::NoCall),
            Place::Load1 => self.parts.load1(),
            Place::Load2 => self.parts.load2(),
            Place::Load3 => self.parts.load3(),
            Place::Store1(bit) => self.parts.store1(self.process, bit),
            Place::Store2 => self.store2(),
            Place::Check1 => self.parts.check1(),
        }
    }
}
