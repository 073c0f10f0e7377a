// A call of one process: its request, and its next step.
ghost use Rattle.std.specs.Prelude.{◌≡◌};
ghost use Rattle.step.specs.Steps.{step_of, reached, own_steps, idle, begun, when_idle, request_of};

use crate::{Outcome, Parts, Place, Record, Request, Requested, Stepped};
use numbers::{Process, Sequence};

impl Place {
    fn is_idle(self) -> bool
        ensures { result ≡ idle self }
    {
        matches!(self, Place::Idle)
    }

    // How many own steps the call will have taken with the next one.
    pub fn own_steps(self) -> u8
        ensures { result ≡ own_steps self }
    {
        match self {
            Place::Idle => 0,
            Place::Load1 | Place::Store7(_) | Place::Check14 => 1,
            Place::Load2 | Place::Store8 => 2,
            Place::Load3(_) | Place::Store9 => 3,
            Place::Load5 | Place::Store10 => 4,
        }
    }

    // The same call place, made anew. A place that is carried whole takes along the seven bytes between its tag and its value, which
    // mean nothing and cost much (docs/SPEED.md).
    fn fresh(self) -> Place
        ensures { result ≡ self }
    {
        match self {
            Place::Idle => Place::Idle,
            Place::Load1 => Place::Load1,
            Place::Load2 => Place::Load2,
            Place::Load3(v) => Place::Load3(v),
            Place::Load5 => Place::Load5,
            Place::Store7(v) => Place::Store7(v),
            Place::Store8 => Place::Store8,
            Place::Store9 => Place::Store9,
            Place::Store10 => Place::Store10,
            Place::Check14 => Place::Check14,
        }
    }
}

impl Record {
    fn begin(self, place: Place) -> Requested
        ensures { result ≡ begun self place }
    {
        Requested {
            own: self.at(place),
            outcome: Outcome::Taken,
        }
    }

    fn ask(self, last: Sequence, request: Request) -> Requested
        ensures { result ≡ when_idle last self request }
    {
        match request {
            Request::Load => self.begin(Place::Load1),
            Request::Store(v) if self.next.0 <= last.0 => self.begin(Place::Store7(v)),
            Request::Store(_) => Requested {
                own: self,
                outcome: Outcome::UsedUp,
            },
            Request::Check => self.begin(Place::Check14),
        }
    }

    // The request of a call by the process whose record this is, in a machine whose last usable sequence number is `last`.
    #[tactic(auto, unfolding(crate::specs::Steps::request_of))]
    pub fn request(self, last: Sequence, request: Request) -> Requested
        ensures { result ≡ request_of last self request }
    {
        if self.place.is_idle() {
            self.ask(last, request)
        } else {
            Requested {
                own: self,
                outcome: Outcome::CallOpen,
            }
        }
    }

    // The same record with its call place made anew, for a loop that has just read it.
    pub fn fresh(self) -> Record
        ensures { result ≡ self }
    {
        self.at(self.place.fresh())
    }

    // Which process's row the next step of process p is to be given.
    pub fn reached_row(self, p: Process) -> Process
        ensures { result ≡ reached p self }
    {
        match self.place {
            Place::Load2 | Place::Load3(_) | Place::Load5 => self.kept.process,
            _ => p,
        }
    }
}

impl Parts {
    // The next step of process p, given X, its own record, and the row that `reached_row` names.
    #[tactic(auto, unfolding(crate::specs::Steps::step_of))]
    pub fn step(self, p: Process) -> Stepped
        ensures { result ≡ step_of p self.x self.own self.row }
    {
        if self.own.next.0 > 4294967296 {
            return self.as_was(Outcome::Unsound);
        }
        match self.own.place {
            Place::Idle => self.as_was(Outcome::NoCall),
            Place::Load1 => self.step_1(),
            Place::Load2 => self.step_2(),
            Place::Load3(v) => self.step_3(v),
            Place::Load5 => self.step_5(),
            Place::Store7(v) => self.step_7(v),
            Place::Store8 => self.step_8(p),
            Place::Store9 => self.step_9(),
            Place::Store10 => self.step_10(),
            Place::Check14 => self.step_14(),
        }
    }
}
