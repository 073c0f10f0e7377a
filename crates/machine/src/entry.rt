// A direct call: any state, any process number, one of four kinds.
ghost use Rattle.std.specs.Prelude.{◌≡◌, ◌<◌};
ghost use Rattle.machine.specs.State.{record_at};
ghost use Rattle.machine.specs.Entry.{row_given, entered, refused, called};

use crate::parts::{parts_after, row_given};
use crate::{Answer, State};
use numbers::Process;
use step::{Kind, Outcome, Parts};

impl State {
    // An entry of a process that is there: its record and its row go out, and what it leaves of them comes back.
    #[tactic(auto, unfolding(crate::specs::Entry::entered))]
    fn enter(self, p: Process, kind: Kind) -> Answer
        requires { (p.0 < 16) × ((row_given p (record_at self p.0) kind).0 < 16) }
        ensures { result ≡ entered self p kind }
    {
        let own = self.records[p.0];
        let q = row_given(p, own, kind);
        let parts = Parts {
            x: self.x,
            own,
            row: self.rows[q.0],
        };
        let left = parts_after(self.s, p, parts, kind);
        let mut state = self;
        state.x = left.x;
        state.rows[q.0] = left.row;
        state.records[p.0] = left.own;
        Answer {
            state,
            outcome: left.outcome,
        }
    }

    fn refused(self, outcome: Outcome) -> Answer
        ensures { result ≡ refused self outcome }
    {
        Answer {
            state: self,
            outcome,
        }
    }

    // A direct call on any state: 15 first, then 11, then what the request or the step itself says.
    #[tactic(auto, unfolding(crate::specs::Entry::called))]
    pub fn call(self, p: Process, kind: Kind) -> Answer
        ensures { result ≡ called self p kind }
    {
        if !self.is_sound() {
            self.refused(Outcome::Unsound)
        } else if p.0 >= self.n {
            self.refused(Outcome::NoProcess)
        } else {
            self.enter(p, kind)
        }
    }
}
