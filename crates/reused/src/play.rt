// An entry over the parts that it can reach, for a direct call and for a loop that keeps the state itself.
ghost use Rattle.std.specs.Prelude.{◌≡◌, not};
ghost use Rattle.reused.specs.Steps.{same_triple, request_of};
ghost use Rattle.reused.specs.Called.{with_x, parts_after};
ghost use Rattle.reused.specs.Parts.{played_parts};
ghost use Rattle.reused.specs.Run.{turned_away, steps_by};

use crate::circle::Circle;
use crate::turn::Turn;
use crate::{Kind, Outcome, Parts, Place, Request, Requested, Stepped, Triple};
use numbers::Process;

impl Parts {
    fn ask(self, wanted: Request) -> Stepped
        ensures { result ≡ with_x self.x (request_of self.own wanted) }
    {
        let Requested { own, outcome } = self.own.request(wanted);
        Parts { own, ..self }.as_was(outcome)
    }

    // An entry of process p.
    #[tactic(auto, unfolding(crate::specs::Parts::played_parts, crate::specs::Parts::sound_parts))]
    pub fn play(self, n: usize, m: u64, p: Process, kind: Kind) -> Stepped
        ensures { result ≡ played_parts n m p self.x self.own self.looked kind }
    {
        if !self.are_sound(n, m) {
            return self.as_was(Outcome::Unsound);
        }
        if n <= p.0 {
            return self.as_was(Outcome::NoProcess);
        }
        let turn = Turn {
            circle: Circle { n, m },
            process: p,
            parts: self,
        };
        turn.play(kind)
    }
}

impl Turn {
    // What the entry leaves of X and of the process's row.
    pub(crate) fn play(self, kind: Kind) -> Stepped
        ensures { result ≡ parts_after self.circle.n self.circle.m self.process self.parts.x self.parts.own self.parts.looked kind }
    {
        match kind {
            Kind::Ask(wanted) => self.parts.ask(wanted),
            Kind::Step => self.step(),
        }
    }
}

impl Outcome {
    // Whether it turns the entry away.
    fn is_turned_away(self) -> bool
        ensures { result ≡ turned_away self }
    {
        matches!(
            self,
            Outcome::NoProcess | Outcome::CallOpen | Outcome::NoCall | Outcome::Unsound
        )
    }
}

// How many own steps are said of an entry, by the place before it and its outcome.
pub fn steps_by(place: Place, kind: Kind, outcome: Outcome) -> u8
    ensures { result ≡ steps_by place kind outcome }
{
    match kind {
        Kind::Step if !outcome.is_turned_away() => place.own_steps(),
        _ => 0,
    }
}

// Whether an entry changed X.
pub fn x_changed(before: Triple, after: Triple) -> bool
    ensures { result ≡ not (same_triple before after) }
{
    before != after
}
