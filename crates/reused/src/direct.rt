// A direct call: any state, any process number, one of four kinds.
ghost use Rattle.std.specs.Prelude.{◌≡◌, true, ◌<◌};
ghost use Rattle.reused.specs.State.{sound};
ghost use Rattle.reused.specs.Called.{entered, refused, called};

use crate::circle::Circle;
use crate::turn::Turn;
use crate::{Answer, Kind, Outcome, Parts, State};
use numbers::Process;

impl State {
    // An entry of a process that is there: X, its row and the place of A at its search place go out, and what it leaves of the first two
    // comes back.
    #[tactic(auto, unfolding(crate::specs::Called::entered))]
    fn enter(self, p: Process, kind: Kind) -> Answer
        requires { (sound self ≡ true) × (p.0 < self.n) }
        ensures { result ≡ entered self p kind }
    {
        let i = p.0;
        let own = self.rows[i];
        let j = own.search.0;
        let looked = self.rows[j].named;
        let turn = Turn {
            circle: Circle {
                n: self.n,
                m: self.m,
            },
            process: p,
            parts: Parts {
                x: self.x,
                own,
                looked,
            },
        };
        let left = turn.play(kind);
        let mut state = self;
        state.x = left.x;
        state.rows[i] = left.own;
        Answer {
            state,
            outcome: left.outcome,
        }
    }

    fn refused(self, outcome: Outcome) -> Answer
        ensures { result ≡ refused self outcome }
    {
        Answer {
            state: self,
            outcome,
        }
    }

    // A direct call on any state: 15 first, then 11, then what the request or the step itself says.
    #[tactic(auto, unfolding(crate::specs::Called::called))]
    pub fn call(self, p: Process, kind: Kind) -> Answer
        ensures { result ≡ called self p kind }
    {
        if !self.is_sound() {
            self.refused(Outcome::Unsound)
        } else if p.0 >= self.n {
            self.refused(Outcome::NoProcess)
        } else {
            self.enter(p, kind)
        }
    }
}
